// The line of a job.
ghost use Rattle.std.specs.Prelude.{◌≡◌};
ghost use Rattle.wm_views.specs.Lines.{is_now, is_bch, is_pj, waiting_status, unless_now, running_status, status, job_line};

use crate::{JobLine, Status};
use wm_base::Moment;
use wm_law::{Job, JobKind, Phase, Wish};

fn is_now(wish: &Wish) -> bool
    ensures { result ≡ is_now wish.now }
{
    matches!(wish, Wish::Now { .. })
}

pub(crate) fn is_bch(kind: JobKind) -> bool
    ensures { result ≡ is_bch kind }
{
    matches!(kind, JobKind::Bch)
}

fn is_pj(kind: JobKind) -> bool
    ensures { result ≡ is_pj kind }
{
    matches!(kind, JobKind::Pj)
}

fn waiting_status(clock: Moment, job: &Job) -> Status
    ensures { result ≡ waiting_status clock job.now }
{
    if job.held {
        Status::Hld
    } else if clock < job.due {
        Status::Scd
    } else {
        Status::Rls
    }
}

fn unless_now(job: &Job, status: Status) -> Status
    ensures { result ≡ unless_now job.now status }
{
    if is_now(&job.wish) {
        Status::End
    } else {
        status
    }
}

fn running_status(job: &Job) -> Status
    ensures { result ≡ running_status job.now }
{
    if is_pj(job.kind) && !job.evoke {
        Status::Psrw
    } else {
        Status::Active
    }
}

fn status(clock: Moment, job: &Job) -> Status
    ensures { result ≡ status clock job.now }
{
    match job.phase {
        Phase::Waiting => waiting_status(clock, job),
        Phase::Starting | Phase::Handed(_) => unless_now(job, Status::Start),
        Phase::Running(_) => unless_now(job, running_status(job)),
        Phase::Ended(cause) => Status::Ended(cause),
    }
}

/// A job in one line, at a moment.
pub(crate) fn job_line(clock: Moment, job: &Job) -> JobLine
    ensures { result ≡ job_line clock job.now }
{
    JobLine {
        job: job.job,
        kind: job.kind,
        pty: job.pty,
        status: status(clock, job),
    }
}
