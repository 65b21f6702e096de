// Numbers that keep a range, limits, and the count that takes no bytes.
ghost use Rattle.std.specs.Prelude.{◌≡◌, ◌<◌};

use anyhow::{Result, anyhow, bail};
use std::marker::Brand;
use std::mem;
use std::sync::ledger::{Blank, Ledger};
use wm_base::{JobNumber, Limit, Moment, Priority, Serial, Steps};

/// The job number that a text is.
pub fn job_number(text: &str) -> Result<JobNumber> {
    let number = text.parse::<u32>()?;
    if number < 1 || number > JobNumber::MAX {
        bail!("no job number");
    }
    Ok(JobNumber::new(number))
}

/// A job number and its digits.
pub fn number(text: &str, answer: &mut String) -> Result<()> {
    let number = job_number(text)?;
    writeln!(answer, "{} {number}", number.get())?;
    Ok(())
}

/// A serial and its digits.
pub fn serial(text: &str, answer: &mut String) -> Result<()> {
    let serial = Serial::new(text.parse::<u64>()?);
    writeln!(answer, "{} {serial}", serial.get())?;
    Ok(())
}

/// A priority and its digit.
pub fn priority(text: &str, answer: &mut String) -> Result<()> {
    let number = text.parse::<u8>()?;
    if number < 1 || number > 9 {
        bail!("no priority");
    }
    let priority = Priority::new(number);
    writeln!(answer, "{} {priority}", priority.get())?;
    Ok(())
}

/// A moment and its digits.
pub fn moment(text: &str, answer: &mut String) -> Result<()> {
    let seconds = text.parse::<u64>()?;
    if seconds > Moment::MAX {
        bail!("no moment");
    }
    let moment = Moment::new(seconds);
    writeln!(answer, "{} {moment}", moment.get())?;
    Ok(())
}

/// The greatest job number and the greatest moment.
pub fn greatest(answer: &mut String) -> Result<()> {
    writeln!(answer, "{} {}", JobNumber::MAX, Moment::MAX)?;
    Ok(())
}

// The limit that a text is.
fn limit_of(text: &str) -> Result<Limit> {
    if text == "*NOMAX" {
        return Ok(Limit::NoMax);
    }
    Ok(Limit::Most(text.parse::<u32>()?))
}

/// A limit as it is printed.
pub fn limit(text: &str, answer: &mut String) -> Result<()> {
    let limit = limit_of(text)?;
    writeln!(answer, "{limit}")?;
    Ok(())
}

/// Whether a limit admits a count.
pub fn admits(text: &str, answer: &mut String) -> Result<()> {
    let (limit, count) = text.split_once(' ').ok_or(anyhow!("a count"))?;
    let count = count.parse::<usize>()?;
    writeln!(answer, "{}", limit_of(limit)?.admits(count))?;
    Ok(())
}

// Counts two steps.
fn count_two<L: Ledger>(blank: Blank)
    requires name { blank.name ≡ L.name }
    requires parts { blank.parts ≡ L.parts }
    requires some { 0 < blank.parts }
{
    let mut steps = Steps::<L>::new(blank);
    steps.tick();
    steps.tick();
}

/// Counts two steps, and tells how many bytes the count has.
pub fn count(answer: &mut String) -> Result<()> {
    count_two::<Brand>(Blank::new(1));
    writeln!(answer, "{}", mem::size_of::<Steps<Brand>>())?;
    Ok(())
}
