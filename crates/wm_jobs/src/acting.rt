// What of a job's wish acts.
ghost use Rattle.std.specs.Prelude.{◌≡◌};
ghost use Rattle.wm_law.specs.Wishes.{is_unhanded, wish_moment};
ghost use Rattle.wm_jobs.specs.Indexed.{runner, acting_of};

use wm_base::Moment;
use wm_indexes::Acting;
use wm_law::{Phase, Wish};

fn is_unhanded(wish: &Wish) -> bool
    ensures { result ≡ is_unhanded wish.now }
{
    match wish {
        Wish::Now { handed, .. } => !*handed,
        _ => false,
    }
}

fn wish_moment(wish: &Wish) -> Option<Moment>
    ensures { result ≡ wish_moment wish.now }
{
    match wish {
        Wish::Later { until, .. } => *until,
        _ => None,
    }
}

// The monitor that runs a job.
fn runner(phase: &Phase) -> Option<u32>
    ensures { result ≡ runner phase.now }
{
    match phase {
        Phase::Running(monitor) => Some(*monitor),
        _ => None,
    }
}

/// What of a wish acts in a phase.
pub(crate) fn acting_of(phase: &Phase, wish: &Wish) -> Acting
    ensures { result ≡ acting_of phase.now wish.now }
{
    let until = wish_moment(wish);
    let kill = if is_unhanded(wish) {
        runner(phase)
    } else {
        None
    };
    Acting { until, kill }
}
