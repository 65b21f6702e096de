// Which jobs are shown.
ghost use Rattle.std.specs.Prelude.{◌≡◌, map, filter, IfOk};
ghost use Rattle.wm_law.specs.Choice.{is_sbs_active};
ghost use Rattle.wm_views.specs.Lines.{job_line};
ghost use Rattle.wm_views.specs.Views.{is_ending, is_submitted_by};

use crate::JobLine;
use crate::lines::{is_bch, job_line};
use std::alloc::Global;
use wm_base::{Moment, Name, NoMemory};
use wm_law::{Job, Sbs, SbsPhase};

fn is_submitted_by(user: &Name, job: &Job) -> bool
    ensures { result ≡ is_submitted_by user.now job.now }
{
    is_bch(job.kind) && job.job.user == *user
}

/// Whether a started subsystem takes no more jobs.
pub(crate) fn is_ending(sbs: &Sbs) -> bool
    ensures { result ≡ is_ending sbs.now }
{
    !matches!(sbs.phase, SbsPhase::Active)
}

/// The jobs that a user submitted.
pub(crate) fn submitted_jobs(
    alloc: Global,
    clock: Moment,
    jobs: &[Job],
    user: &Name,
) -> Result<Vec<JobLine>, NoMemory>
    ensures { IfOk result (λ lines. lines.items ≡ map (job_line clock) (filter (is_submitted_by user.now) jobs.now)) }
{
    jobs.iter()
        .filter(|job| is_submitted_by(user, job))
        .map(|job| job_line(clock, job))
        .collect(alloc)
}
