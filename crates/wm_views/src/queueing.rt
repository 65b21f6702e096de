// The jobs that wait on a queue.
ghost use Rattle.std.specs.Prelude.{◌≡◌, IfOk};
ghost use Rattle.wm_views.specs.Queued.{queued_jobs};

use crate::JobLine;
use crate::lines::job_line;
use std::alloc::Global;
use wm_base::{NoMemory, QName};
use wm_jobs::JobTable;

/// The jobs that wait on a queue, in their turn. It is one look for each, and one more.
pub(crate) fn queued_jobs(
    alloc: Global,
    jobs: &JobTable,
    jobq: &QName,
) -> Result<Vec<JobLine>, NoMemory>
    ensures { IfOk result (λ lines. lines.items ≡ queued_jobs jobq.now jobs.now.clock jobs.now.jobs) }
{
    let waiting = jobs.waiting();
    // `len` tells that places differ.
    waiting.len();
    let mut lines = Vec::new(alloc);
    let mut next = waiting.first_on(jobq);
    while let Some(waiter) = next {
        let Some(job) = jobs.job(waiter.serial) else {
            // each that waits is a job of the table
            unreachable!()
        };
        lines.push(job_line(jobs.clock(), job))?;
        next = waiting.next_on(&waiter);
    }
    Ok(lines)
}
