// Which subsystem is gone.
ghost use Rattle.std.specs.Prelude.{◌≡◌, List};
ghost use Rattle.wm_law.specs.declared.job.Job.{Job};
ghost use Rattle.wm_law.specs.Settling.{is_ending, is_gone};
ghost use Rattle.wm_pick.specs.Tally.{IsTally};
ghost use Rattle.wm_pick.specs.Tallied.{hows};
ghost use Rattle.wm_subsystems.specs.Gone.{is_gone_by};

use wm_law::{Sbs, SbsPhase};
use wm_pick::{Counted, Tally};

/// Whether a subsystem is ending.
pub fn is_ending(phase: &SbsPhase) -> bool
    ensures { result ≡ is_ending phase.now }
{
    match phase {
        SbsPhase::Active => false,
        SbsPhase::Ending(_) | SbsPhase::Now => true,
    }
}

/// Whether a subsystem is gone: it is ending, and by the tally none of its jobs is active. Where the tally is that of the
/// jobs, this is what the definition says of them.
pub fn gone(sbs: &Sbs, tally: &Tally) -> bool
    ensures by_count { result ≡ is_gone_by tally.now sbs.now }
    ensures gone { (jobs : List Job) → IsTally (hows jobs) tally.now → result ≡ is_gone jobs sbs.now }
{
    is_ending(&sbs.phase) && tally.count(&Counted::Sbs(sbs.sbsd)) == 0
}
