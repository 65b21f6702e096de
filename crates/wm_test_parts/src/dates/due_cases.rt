// What due.txt asks:
//
// > due WORD TIME NOW OFFSET    from which moment on a job may start, or `past` or `out of range`: WORD and TIME as
//                               `asked.rt` reads them, the moment NOW, and local time OFFSET minutes ahead of UTC
use super::asked;
use anyhow::{Context, Result, bail};
use std::alloc::AllocError;
use wm_base::Moment;
use wm_cases::Subject;
use wm_when::{DueFault, SchedSpec, due, is_offset};

/// The words of schedules.
#[derive(Drop)]
pub struct DueCases;

impl Subject for DueCases {
    fn begin(&mut self) -> Result<()> {
        Ok(())
    }

    fn answer(&mut self, question: &str, answer: &mut String) -> Result<()> {
        let words = question.strip_prefix("due ").context("no question")?;
        let (date, words) = words.split_once(' ').context("a time")?;
        let (time, words) = words.split_once(' ').context("a moment")?;
        let (now, offset) = words.split_once(' ').context("an offset")?;
        let schedule = SchedSpec {
            date: asked::date_of(date)?,
            time: asked::time_of(time)?,
        };
        tell_due(
            &schedule,
            now.parse::<u64>()?,
            offset.parse::<i32>()?,
            answer,
        )
    }
}

fn tell_due(schedule: &SchedSpec, now: u64, offset: i32, answer: &mut String) -> Result<()> {
    if !schedule.is_in_range() || now > Moment::MAX || !is_offset(offset) {
        bail!("out of the range of the question");
    }
    push_due(&due(schedule, Moment::new(now), offset), answer)?;
    Ok(())
}

fn push_due(due: &Result<Moment, DueFault>, answer: &mut String) -> Result<(), AllocError> {
    match due {
        Ok(moment) => writeln!(answer, "{moment}"),
        Err(DueFault::Past) => answer.push_str("past\n"),
        Err(DueFault::OutOfRange) => answer.push_str("out of range\n"),
    }
}
