// Which phases wait, are handed out, and count.
ghost use Rattle.std.specs.Prelude.{◌≡◌, ◌&&◌, not};
ghost use Rattle.wm_law.specs.Counts.{is_waiting, is_starting, is_active, is_prestart};
ghost use Rattle.wm_law.specs.Named.{is_ended};
ghost use Rattle.wm_pick.specs.Parts.{waiter_of};

use wm_law::{Job, JobKind, Phase};
use wm_ordered::Waiter;

pub(crate) fn is_waiting(phase: &Phase) -> bool
    ensures { result ≡ is_waiting phase.now }
{
    matches!(phase, Phase::Waiting)
}

pub(crate) fn is_starting(phase: &Phase) -> bool
    ensures { result ≡ is_starting phase.now }
{
    matches!(phase, Phase::Starting)
}

pub(crate) fn is_active(phase: &Phase) -> bool
    ensures { result ≡ is_active phase.now }
{
    matches!(
        phase,
        Phase::Starting | Phase::Handed(_) | Phase::Running(_)
    )
}

pub(crate) fn is_ended(phase: &Phase) -> bool
    ensures { result ≡ is_ended phase.now }
{
    matches!(phase, Phase::Ended(_))
}

fn is_prestart(kind: &JobKind) -> bool
    ensures { result ≡ is_prestart kind.now }
{
    matches!(kind, JobKind::Pj)
}

/// Whether a job counts where prestart jobs don't, if it counts at all.
pub(crate) fn counts_as_busy(counts: bool, kind: &JobKind) -> bool
    ensures { result ≡ (counts && not (is_prestart kind.now)) }
{
    counts && !is_prestart(kind)
}

/// A job that waits on a queue, as what a choice looks at.
pub(crate) fn waiter_of(job: &Job) -> Option<Waiter>
    ensures { result ≡ waiter_of job.now }
{
    if !is_waiting(&job.phase) {
        return None;
    }
    let jobq = job.jobq?;
    Some(Waiter {
        serial: job.serial,
        jobq,
        pty: job.pty,
        place: job.place,
        held: job.held,
        due: job.due,
    })
}
