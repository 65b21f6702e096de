// Which rows of jobs a step changes.
ghost use Rattle.std.specs.Prelude.{◌≡◌, ◌≤◌, length, fold, nat_eq, take, OnOk};
ghost use Rattle.std.specs.Option.{option_copied};
ghost use Rattle.wm_desc.specs.Sorted.{removed};
ghost use Rattle.wm_jobs.specs.Marked.{undone};
ghost use Rattle.wm_ordered.specs.Ordered.{key_of};
ghost use Rattle.wm_tables.specs.Noted.{new_jobs, is_old, old_job, with_row, PutsOther, PutsTouched, PutsNoted, PutsJobs};

use crate::noting::{is_stored_as, noted};
use std::alloc::Global;
use wm_base::{NoMemory, Serial};
use wm_jobs::{JobTable, Standing};
use wm_law::Job;
use wm_ordered::Ordered;
use wm_rows::job_row;
use wm_traits::RowChange;

fn new_jobs(jobs: &JobTable) -> &[Job]
    ensures { result.now ≡ new_jobs jobs.now }
{
    &jobs.jobs()[jobs.marked_jobs()..]
}

fn is_old(new: &[Job], serial: Serial) -> bool
    ensures { result ≡ is_old new.now serial }
{
    match new.first() {
        None => true,
        Some(job) => serial < job.serial,
    }
}

fn old_job(jobs: &JobTable, serial: Serial) -> Option<&Job>
    ensures { option_copied result ≡ old_job jobs.now serial }
{
    if is_old(new_jobs(jobs), serial) {
        jobs.job(serial)
    } else {
        None
    }
}

fn put_row(alloc: Global, job: &Job, changes: &mut Vec<RowChange>) -> Result<(), NoMemory>
    ensures { OnOk result (changes.new.items ≡ with_row changes.old.items job.now) }
{
    changes.push(RowChange::Put(job_row(alloc, job)?))?;
    Ok(())
}

fn put_other(
    alloc: Global,
    was: &Standing,
    job: &Job,
    changes: &mut Vec<RowChange>,
) -> Result<(), NoMemory>
    ensures { OnOk result (PutsOther was.now job.now changes.old.items changes.new.items) }
{
    if !is_stored_as(was, job) {
        put_row(alloc, job, changes)?;
    }
    Ok(())
}

fn put_touched(
    alloc: Global,
    jobs: &JobTable,
    serial: Serial,
    was: &Standing,
    changes: &mut Vec<RowChange>,
) -> Result<(), NoMemory>
    ensures { OnOk result (PutsTouched was.now (old_job jobs.now serial) changes.old.items changes.new.items) }
{
    match old_job(jobs, serial) {
        None => Ok(()),
        Some(job) => {
            put_other(alloc, was, job, changes)?;
            Ok(())
        }
    }
}

fn take_out(noted: &mut Ordered<Serial, Standing>, serial: Serial)
    ensures { noted.new.items ≡ removed key_of nat_eq serial noted.old.items }
{
    noted.remove(&serial);
}

// Puts the rows of touched jobs, in the order of their serials.
fn put_noted(
    alloc: Global,
    jobs: &JobTable,
    mut noted: Ordered<Serial, Standing>,
    changes: &mut Vec<RowChange>,
) -> Result<(), NoMemory>
    ensures { OnOk result (PutsNoted jobs.now noted.items changes.old.items changes.new.items) }
{
    for _ in 0..noted.len() {
        if let Some(first) = noted.first() {
            take_out(&mut noted, first.0);
            put_touched(alloc, jobs, first.0, &first.1, changes)?;
        }
    }
    Ok(())
}

fn put_all_new(alloc: Global, new: &[Job], changes: &mut Vec<RowChange>) -> Result<(), NoMemory>
    ensures { OnOk result (changes.new.items ≡ fold with_row changes.old.items new.now) }
{
    for job in new {
        put_row(alloc, job, changes)?;
    }
    Ok(())
}

/// Puts the rows of jobs that were touched since the mark, where something else is stored of them now, and of those that came.
/// An `Err` is want of memory.
pub(crate) fn put_jobs(
    alloc: Global,
    jobs: &JobTable,
    changes: &mut Vec<RowChange>,
) -> Result<(), NoMemory>
    ensures changes { OnOk result (PutsJobs jobs.now changes.old.items changes.new.items) }
    ensures before { OnOk result (jobs.now.marked.jobs ≡ undone jobs.now.touched (take (length jobs.now.marked.jobs) jobs.now.jobs)) }
    ensures there { OnOk result (length jobs.now.marked.jobs ≤ length jobs.now.jobs) }
{
    jobs.marked_jobs();
    let noted = noted(alloc, jobs.touched())?;
    put_noted(alloc, jobs, noted, changes)?;
    put_all_new(alloc, new_jobs(jobs), changes)?;
    Ok(())
}
