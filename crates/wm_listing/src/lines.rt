// The lines of jobs and subsystems.
ghost use Rattle.std.specs.Prelude.{◌≡◌, ◌++◌, OnOk};
ghost use Rattle.std.specs.List.{flat_map};
ghost use Rattle.std.specs.Fmt.{decimal};
ghost use Rattle.wm_listing.specs.Columns.{aligned};
ghost use Rattle.wm_listing.specs.Listing.{number_field, job_fields, status_field, active_job_text, active_sbs_text, active_text, queue_job_text, submitted_text, sbs_text};

use crate::columns::{push_aligned, push_padded};
use crate::words::{ending_word, kind_word, status_text};
use std::alloc::Global;
use wm_base::NoMemory;
use wm_views::{ActiveLine, JobLine, SbsLine};

// The number in six digits, and a blank.
fn push_number(alloc: Global, out: &mut Vec<u8>, line: &JobLine) -> Result<(), NoMemory>
    ensures { OnOk result (out.new.items ≡ out.old.items ++ number_field line.now) }
{
    let number = line.job.number.to_string(alloc)?;
    out.extend_from_slice(number.as_bytes())?;
    out.extend_from_slice(b" ")?;
    Ok(())
}

// The name in a column of some width, the user and the number.
fn push_fields(
    alloc: Global,
    out: &mut Vec<u8>,
    width: usize,
    line: &JobLine,
) -> Result<(), NoMemory>
    ensures { OnOk result (out.new.items ≡ out.old.items ++ job_fields width line.now) }
{
    push_padded(out, width, line.job.name.as_bytes())?;
    push_padded(out, 11, line.job.user.as_bytes())?;
    push_number(alloc, out, line)?;
    Ok(())
}

// The status, and the line's end.
fn push_status(alloc: Global, out: &mut Vec<u8>, line: &JobLine) -> Result<(), NoMemory>
    ensures { OnOk result (out.new.items ≡ out.old.items ++ status_field line.now) }
{
    let status = status_text(alloc, &line.status)?;
    out.extend_from_slice(status.as_bytes())?;
    out.extend_from_slice(b"\n")?;
    Ok(())
}

fn push_active_job(alloc: Global, out: &mut Vec<u8>, line: &JobLine) -> Result<(), NoMemory>
    ensures { OnOk result (out.new.items ≡ out.old.items ++ active_job_text line.now) }
{
    out.extend_from_slice(b"  ")?;
    push_fields(alloc, out, 10, line)?;
    push_padded(out, 5, kind_word(line.kind).as_bytes())?;
    push_status(alloc, out, line)?;
    Ok(())
}

fn push_active_jobs(alloc: Global, out: &mut Vec<u8>, lines: &[JobLine]) -> Result<(), NoMemory>
    ensures { OnOk result (out.new.items ≡ out.old.items ++ flat_map active_job_text lines.now) }
{
    for line in lines {
        push_active_job(alloc, out, line)?;
    }
    Ok(())
}

fn push_active_sbs(out: &mut Vec<u8>, line: &ActiveLine) -> Result<(), NoMemory>
    ensures { OnOk result (out.new.items ≡ out.old.items ++ active_sbs_text line.now) }
{
    push_padded(out, 12, line.sbs.name.as_bytes())?;
    out.extend_from_slice(b"QSYS              SBS  ")?;
    out.extend_from_slice(ending_word(line.ending).as_bytes())?;
    out.extend_from_slice(b"\n")?;
    Ok(())
}

// A subsystem with its active jobs.
fn push_active(alloc: Global, out: &mut Vec<u8>, line: &ActiveLine) -> Result<(), NoMemory>
    ensures { OnOk result (out.new.items ≡ out.old.items ++ active_text line.now) }
{
    push_active_sbs(out, line)?;
    push_active_jobs(alloc, out, line.jobs.as_slice())?;
    Ok(())
}

/// Adds the subsystems with their active jobs.
pub(crate) fn push_actives(
    alloc: Global,
    out: &mut Vec<u8>,
    lines: &[ActiveLine],
) -> Result<(), NoMemory>
    ensures { OnOk result (out.new.items ≡ out.old.items ++ flat_map active_text lines.now) }
{
    for line in lines {
        push_active(alloc, out, line)?;
    }
    Ok(())
}

fn push_queue_job(alloc: Global, out: &mut Vec<u8>, line: &JobLine) -> Result<(), NoMemory>
    ensures { OnOk result (out.new.items ≡ out.old.items ++ queue_job_text line.now) }
{
    push_fields(alloc, out, 11, line)?;
    let pty = line.pty.to_string(alloc)?;
    push_aligned(out, 3, pty.as_bytes())?;
    out.extend_from_slice(b" ")?;
    push_status(alloc, out, line)?;
    Ok(())
}

/// Adds the jobs that wait on a queue.
pub(crate) fn push_queue_jobs(
    alloc: Global,
    out: &mut Vec<u8>,
    lines: &[JobLine],
) -> Result<(), NoMemory>
    ensures { OnOk result (out.new.items ≡ out.old.items ++ flat_map queue_job_text lines.now) }
{
    for line in lines {
        push_queue_job(alloc, out, line)?;
    }
    Ok(())
}

fn push_submitted_job(alloc: Global, out: &mut Vec<u8>, line: &JobLine) -> Result<(), NoMemory>
    ensures { OnOk result (out.new.items ≡ out.old.items ++ submitted_text line.now) }
{
    push_padded(out, 11, line.job.name.as_bytes())?;
    push_number(alloc, out, line)?;
    push_status(alloc, out, line)?;
    Ok(())
}

/// Adds the jobs that a user submitted.
pub(crate) fn push_submitted(
    alloc: Global,
    out: &mut Vec<u8>,
    lines: &[JobLine],
) -> Result<(), NoMemory>
    ensures { OnOk result (out.new.items ≡ out.old.items ++ flat_map submitted_text lines.now) }
{
    for line in lines {
        push_submitted_job(alloc, out, line)?;
    }
    Ok(())
}

// A subsystem, with how many active jobs it has and may have.
fn push_sbs(alloc: Global, out: &mut Vec<u8>, line: &SbsLine) -> Result<(), NoMemory>
    ensures { OnOk result (out.new.items ≡ out.old.items ++ sbs_text line.now) }
{
    push_padded(out, 11, line.sbs.name.as_bytes())?;
    let count = line.count.to_string(alloc)?;
    push_aligned(out, 6, count.as_bytes())?;
    out.extend_from_slice(b" ")?;
    let most = line.maxjobs.to_string(alloc)?;
    push_aligned(out, 7, most.as_bytes())?;
    out.extend_from_slice(b" ")?;
    out.extend_from_slice(ending_word(line.ending).as_bytes())?;
    out.extend_from_slice(b"\n")?;
    Ok(())
}

/// Adds the subsystems.
pub(crate) fn push_subsystems(
    alloc: Global,
    out: &mut Vec<u8>,
    lines: &[SbsLine],
) -> Result<(), NoMemory>
    ensures { OnOk result (out.new.items ≡ out.old.items ++ flat_map sbs_text lines.now) }
{
    for line in lines {
        push_sbs(alloc, out, line)?;
    }
    Ok(())
}
