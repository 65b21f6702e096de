// The moments at which wishes and ending subsystems are due.
ghost use Rattle.std.specs.Prelude.{◌≡◌};
ghost use Rattle.wm_law.specs.Pending.{ahead, soonest};
ghost use Rattle.wm_law.specs.Settling.{sbs_moment};

use wm_base::Moment;
use wm_law::SbsPhase;

/// The lesser of two moments, where there is one.
pub fn soonest(least: Option<Moment>, moment: Option<Moment>) -> Option<Moment>
    ensures { result ≡ soonest least moment }
{
    let Some(moment) = moment else {
        return least;
    };
    match least {
        None => Some(moment),
        Some(least) => Some(least.min(moment)),
    }
}

/// The moment, where it is above the clock.
pub fn ahead(clock: Moment, moment: Option<Moment>) -> Option<Moment>
    ensures { result ≡ ahead clock moment }
{
    match moment {
        Some(moment) if clock < moment => Some(moment),
        _ => None,
    }
}

/// The moment at which a subsystem ends, where it has one.
pub fn sbs_moment(phase: &SbsPhase) -> Option<Moment>
    ensures { result ≡ sbs_moment phase.now }
{
    match phase {
        SbsPhase::Ending(until) => *until,
        SbsPhase::Active | SbsPhase::Now => None,
    }
}
