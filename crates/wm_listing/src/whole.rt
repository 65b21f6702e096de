// The listing of what is shown.
ghost use Rattle.std.specs.Prelude.{◌≡◌, ◌++◌, OnOk, IfOk};
ghost use Rattle.std.specs.List.{flat_map};
ghost use Rattle.wm_listing.specs.Listing.{active_head, active_text, queue_head, queue_jobs_head, queue_job_text, submitted_head, submitted_text, sbs_head, sbs_text, list_end, listing_text};

use crate::heads::{push_job, push_no, push_queue};
use crate::lines::{push_actives, push_queue_jobs, push_submitted, push_subsystems};
use std::alloc::Global;
use wm_base::NoMemory;
use wm_views::{QueueShown, Shown};

// The queue, and the jobs that wait on it below their heads.
fn push_waiting(alloc: Global, out: &mut Vec<u8>, queue: &QueueShown) -> Result<(), NoMemory>
    ensures { OnOk result (out.new.items ≡ out.old.items ++ queue_head queue.now ++ queue_jobs_head ++ flat_map queue_job_text queue.now.jobs) }
{
    push_queue(alloc, out, queue)?;
    out.extend_from_slice(b"JOB        USER       NUMBER PTY STATUS\n")?;
    push_queue_jobs(alloc, out, queue.jobs.as_slice())?;
    Ok(())
}

/// Adds the last line of a listing. An `Err` is want of memory.
pub fn push_end(out: &mut Vec<u8>) -> Result<(), NoMemory>
    ensures { OnOk result (out.new.items ≡ out.old.items ++ list_end) }
{
    out.extend_from_slice(b"END OF LIST\n")?;
    Ok(())
}

/// The bytes of the listing of what is shown; of a refusal, its line. An `Err` is want of memory.
pub fn listing(alloc: Global, shown: &Shown) -> Result<Vec<u8>, NoMemory>
    ensures { IfOk result (λ bytes. bytes.items ≡ listing_text shown.now) }
{
    let mut out = Vec::new(alloc);
    match shown {
        Shown::Active(lines) => {
            out.extend_from_slice(b"SUBSYSTEM/  USER       NUMBER TYPE STATUS\n")?;
            push_actives(alloc, &mut out, lines.as_slice())?;
        }
        Shown::Queue(queue) => push_waiting(alloc, &mut out, queue)?,
        Shown::Submitted(lines) => {
            out.extend_from_slice(b"JOB        NUMBER STATUS\n")?;
            push_submitted(alloc, &mut out, lines.as_slice())?;
        }
        Shown::Subsystems(lines) => {
            out.extend_from_slice(b"SUBSYSTEM  ACTIVE MAXIMUM STATUS\n")?;
            push_subsystems(alloc, &mut out, lines.as_slice())?;
        }
        Shown::Job(job) => push_job(alloc, &mut out, job)?,
        Shown::NoView => {}
        Shown::No(refusal) => {
            push_no(alloc, &mut out, refusal)?;
            return Ok(out);
        }
    }
    push_end(&mut out)?;
    Ok(out)
}
