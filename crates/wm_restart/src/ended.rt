// What is written where there are rows: those of jobs that were active, and have ended now.
ghost use Rattle.std.specs.Prelude.{◌≡◌, ◌↔◌, All, IsTrue, IfOk, OnOk};
ghost use Rattle.wm_base.specs.declared.job.EndCause.TheVariants.{Restarted};
ghost use Rattle.wm_law.specs.declared.job.Phase.TheVariants.{Ended};
ghost use Rattle.wm_traits.specs.Rows.{IsInOrder};
ghost use Rattle.wm_restart.specs.Written.{with_job, job_changes, Stands};

use crate::found::is_found;
use std::alloc::Global;
use wm_base::{EndCause, NoMemory};
use wm_law::{Job, Phase};
use wm_rows::job_row;
use wm_traits::{Row, RowChange};

fn ended_by_restart(phase: &Phase) -> bool
    ensures { IsTrue result ↔ (phase.now ≡ Ended Restarted) }
{
    matches!(phase, Phase::Ended(EndCause::Restarted))
}

// Puts the row of a job where it isn't found. A job that an earlier restart has ended is found as it is.
fn put_job(
    alloc: Global,
    found: &[Row],
    job: &Job,
    changes: &mut Vec<RowChange>,
) -> Result<(), NoMemory>
    requires order { IsInOrder found.now }
    requires stands { Stands found.now job.now }
    ensures { OnOk result (changes.new.items ≡ with_job found.now changes.old.items job.now) }
{
    if !ended_by_restart(&job.phase) {
        return Ok(());
    }
    let row = job_row(alloc, job)?;
    if !is_found(found, &row) {
        changes.push(RowChange::Put(row))?;
    }
    Ok(())
}

/// The changes that put the rows of jobs which aren't among those found. An `Err` is want of memory.
pub(crate) fn job_changes(
    alloc: Global,
    found: &[Row],
    jobs: &[Job],
) -> Result<Vec<RowChange>, NoMemory>
    requires order { IsInOrder found.now }
    requires stand { All (Stands found.now) jobs.now }
    ensures { IfOk result (λ changes. changes.items ≡ job_changes found.now jobs.now) }
{
    let mut changes = Vec::new(alloc);
    for job in jobs {
        put_job(alloc, found, job, &mut changes)?;
    }
    Ok(changes)
}
