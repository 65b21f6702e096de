// The moments at which ending subsystems are due.
use crate::Machine;
use wm_base::Moment;
use wm_subsystems::{ahead, sbs_moment, soonest};

impl Machine {
    ghost use Rattle.std.specs.Prelude.{◌≡◌};
    ghost use Rattle.wm_law.specs.Pending.{next_ending};

    /// The least moment above the clock at which an ending subsystem ends.
    pub(crate) fn next_ending(&self) -> Option<Moment>
        ensures { result ≡ next_ending self.now.state }
    {
        let clock = self.table.clock();
        self.started.as_slice().iter().fold(None, |least, sbs| {
            soonest(least, ahead(clock, sbs_moment(&sbs.phase)))
        })
    }
}
