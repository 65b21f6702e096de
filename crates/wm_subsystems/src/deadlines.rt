// When a wish acts.
ghost use Rattle.std.specs.Prelude.{◌≡◌};
ghost use Rattle.wm_law.specs.Counts.{is_prestart};
ghost use Rattle.wm_law.specs.Wishes.{deadline, has_come, is_due};

use wm_base::Moment;
use wm_law::{Job, JobKind, Wish};

/// Whether a job is a prestart job.
pub fn is_prestart(kind: &JobKind) -> bool
    ensures { result ≡ is_prestart kind.now }
{
    match kind {
        JobKind::Bch | JobKind::Asj => false,
        JobKind::Pj => true,
    }
}

/// Whether a moment has come. None never comes.
pub fn has_come(clock: Moment, until: Option<Moment>) -> bool
    ensures { result ≡ has_come clock until }
{
    match until {
        None => false,
        Some(moment) => moment <= clock,
    }
}

// Whether a Later wish of the job has come due: its moment has come, or the job is a prestart job without a request.
fn is_due(job: &Job, until: Option<Moment>, clock: Moment) -> bool
    ensures { result ≡ is_due clock job.now until }
{
    has_come(clock, until) || (is_prestart(&job.kind) && !job.evoke)
}

/// The wish that a job has once the clock is looked at: a Later wish that has come due is one to end now.
pub fn deadline(job: &Job, clock: Moment) -> Wish
    ensures { result ≡ deadline clock job.now }
{
    let Wish::Later { until, why } = job.wish else {
        return job.wish;
    };
    if is_due(job, until, clock) {
        return Wish::Now { why, handed: false };
    }
    job.wish
}
