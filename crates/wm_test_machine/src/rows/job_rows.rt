// What job_rows.txt asks:
//
// > job TAB|KEY|BODY     the job that the row holds, or `NONE` where it's no job's row. A job is told as
//                        `SERIAL NUMBER/USER/NAME HELD|FREE PHASE [ROUTING DATA] [REQUEST]`, without the last where there
//                        is no request
use super::words;
use anyhow::{Context, Result};
use std::alloc::{AllocError, Global};
use wm_base::Text;
use wm_cases::Subject;
use wm_rows::{StoredJob, read_job};

/// The rows of jobs.
#[derive(Drop)]
pub struct JobCases {
    alloc: Global,
}

impl JobCases {
    pub fn new(alloc: Global) -> JobCases {
        JobCases { alloc }
    }
}

impl Subject for JobCases {
    fn begin(&mut self) -> Result<()> {
        Ok(())
    }

    fn answer(&mut self, question: &str, answer: &mut String) -> Result<()> {
        let written = question.strip_prefix("job ").context("no question")?;
        let row = words::row(self.alloc, written)?;
        let job = read_job(self.alloc, &row)?;
        push_read(&job, answer)
    }
}

fn push_read(job: &Option<StoredJob>, answer: &mut String) -> Result<()> {
    match job {
        None => answer.push_str("NONE\n")?,
        Some(job) => push_job(job, answer)?,
    }
    Ok(())
}

fn push_job(job: &StoredJob, answer: &mut String) -> Result<(), AllocError> {
    write!(
        answer,
        "{} {}/{}/{}",
        job.serial, job.number, job.user, job.name
    )?;
    push_stage(job, answer)?;
    push_request(&job.rqsdta, answer)
}

fn push_stage(job: &StoredJob, answer: &mut String) -> Result<(), AllocError> {
    let held = held_word(job.held);
    write!(answer, " {held} {:?} [{}]", job.phase, job.rtgdta)
}

fn push_request(request: &Option<Text>, answer: &mut String) -> Result<(), AllocError> {
    match request {
        None => answer.push('\n'),
        Some(request) => writeln!(answer, " [{request}]"),
    }
}

fn held_word(held: bool) -> &'static str {
    if held { "HELD" } else { "FREE" }
}
