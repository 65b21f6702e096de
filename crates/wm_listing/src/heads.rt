// What stands before the lines of a listing, and the values of one job.
ghost use Rattle.std.specs.Prelude.{◌≡◌, ◌++◌, OnOk};
ghost use Rattle.wm_listing.specs.Listing.{queue_head, value_line, job_text, no_text};

use crate::words::{held_word, jobq_text, kind_word, status_text};
use std::alloc::Global;
use wm_base::{NoMemory, Refusal};
use wm_views::{JobShown, QueueShown};

/// Adds a queue, whether it is held, and how many jobs wait on it.
pub(crate) fn push_queue(
    alloc: Global,
    out: &mut Vec<u8>,
    queue: &QueueShown,
) -> Result<(), NoMemory>
    ensures { OnOk result (out.new.items ≡ out.old.items ++ queue_head queue.now) }
{
    out.extend_from_slice(b"QUEUE ")?;
    let jobq = queue.jobq.to_string(alloc)?;
    out.extend_from_slice(jobq.as_bytes())?;
    out.extend_from_slice(b" ")?;
    out.extend_from_slice(held_word(queue.held).as_bytes())?;
    out.extend_from_slice(b" ")?;
    let count = queue.jobs.len().to_string(alloc)?;
    out.extend_from_slice(count.as_bytes())?;
    out.extend_from_slice(b" JOBS\n")?;
    Ok(())
}

// A word and its value.
fn push_value(out: &mut Vec<u8>, word: &[u8], value: &[u8]) -> Result<(), NoMemory>
    ensures { OnOk result (out.new.items ≡ out.old.items ++ value_line word.now value.now) }
{
    out.extend_from_slice(word)?;
    out.extend_from_slice(b" ")?;
    out.extend_from_slice(value)?;
    out.extend_from_slice(b"\n")?;
    Ok(())
}

/// Adds all of a job.
pub(crate) fn push_job(alloc: Global, out: &mut Vec<u8>, job: &JobShown) -> Result<(), NoMemory>
    ensures { OnOk result (out.new.items ≡ out.old.items ++ job_text job.now) }
{
    let name = job.line.job.to_string(alloc)?;
    push_value(out, b"JOB", name.as_bytes())?;
    push_value(out, b"TYPE", kind_word(job.line.kind).as_bytes())?;
    let jobq = jobq_text(alloc, &job.jobq)?;
    push_value(out, b"QUEUE", jobq.as_bytes())?;
    let pty = job.line.pty.to_string(alloc)?;
    push_value(out, b"PRIORITY", pty.as_bytes())?;
    let status = status_text(alloc, &job.line.status)?;
    push_value(out, b"STATUS", status.as_bytes())?;
    Ok(())
}

/// Adds the line of a refusal.
pub(crate) fn push_no(alloc: Global, out: &mut Vec<u8>, refusal: &Refusal) -> Result<(), NoMemory>
    ensures { OnOk result (out.new.items ≡ out.old.items ++ no_text refusal.now) }
{
    let refusal = refusal.to_string(alloc)?;
    push_value(out, b"NO", refusal.as_bytes())?;
    Ok(())
}
