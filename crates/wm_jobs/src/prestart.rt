// What an active job is among prestart jobs.
ghost use Rattle.std.specs.Prelude.{◌≡◌, option_map};
ghost use Rattle.wm_law.specs.declared.job.Job.{Job};
ghost use Rattle.wm_law.specs.Prestart.{is_available, is_idle, is_running, is_to_run};
ghost use Rattle.wm_law.specs.Wishes.{has_wish};
ghost use Rattle.wm_indexes.specs.OfJobs.{readiness_of, row_of};
ghost use Rattle.wm_jobs.specs.Marked.{standing_as};

use crate::marking::standing_of;
use crate::phases::is_active;
use crate::touched::Standing;
use wm_base::How;
use wm_indexes::{PrestartEntry, PrestartJob, Readiness};
use wm_law::{Job, Phase, Wish};

fn has_wish(wish: &Wish) -> bool
    ensures { result ≡ has_wish wish.now }
{
    match wish {
        Wish::NoWish => false,
        Wish::Later { .. } | Wish::Now { .. } => true,
    }
}

fn is_to_run(phase: &Phase) -> bool
    ensures { result ≡ is_to_run phase.now }
{
    matches!(phase, Phase::Starting | Phase::Handed(_))
}

fn is_running(phase: &Phase) -> bool
    ensures { result ≡ is_running phase.now }
{
    matches!(phase, Phase::Running(_))
}

fn is_idle(standing: &Standing) -> bool
    ensures { (j : Job) → result ≡ is_idle (standing_as standing.now j) }
{
    is_running(&standing.phase) && !standing.evoke && !has_wish(&standing.wish)
}

fn is_available(standing: &Standing) -> bool
    ensures { (j : Job) → result ≡ is_available (standing_as standing.now j) }
{
    !has_wish(&standing.wish) && (is_to_run(&standing.phase) || is_idle(standing))
}

// Whether a job that stands like that can take a request.
fn readiness(standing: &Standing) -> Readiness
    ensures { (j : Job) → result ≡ readiness_of (standing_as standing.now j) }
{
    if is_idle(standing) {
        Readiness::Idle
    } else if is_available(standing) {
        Readiness::Coming
    } else {
        Readiness::Taken
    }
}

/// A job that comes to stand like that, as a prestart job, where it is active then and came by a prestart entry.
pub(crate) fn prestart_as(job: &Job, standing: &Standing) -> Option<PrestartJob>
    ensures { option_map (λ it. (job.now.serial, it)) result ≡ row_of (standing_as standing.now job.now) }
{
    if !is_active(&standing.phase) {
        return None;
    }
    match standing.how {
        How::Pre { sbs, pgm } => Some(PrestartJob {
            entry: PrestartEntry { sbs, pgm },
            number: job.job.number,
            readiness: readiness(standing),
        }),
        _ => None,
    }
}

/// An active job that came by a prestart entry, as a prestart job.
pub(crate) fn prestart_of(job: &Job) -> Option<PrestartJob>
    ensures { option_map (λ it. (job.now.serial, it)) result ≡ row_of job.now }
{
    prestart_as(job, &standing_of(job))
}
