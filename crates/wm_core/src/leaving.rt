// Ending subsystems with no active job leave.
use crate::Machine;
use wm_subsystems::{drop_gone, drop_gone_evokes, drop_gone_stops};

impl Machine {
    ghost use Rattle.std.specs.Prelude.{◌≡◌};
    ghost use Rattle.wm_law.specs.Settling.{leave};

    /// Ending subsystems with no active job leave, with their stopped entries and the requests that wait there.
    pub(crate) fn leave(&mut self)
        ensures state { self.new.state ≡ leave self.old.state }
        ensures marks { self.new.marks ≡ self.old.marks }
    {
        drop_gone_stops(&mut self.stopped, &self.started, self.table.tally());
        drop_gone_evokes(&mut self.evokes, &self.started, self.table.tally());
        drop_gone(&mut self.started, self.table.tally());
    }
}
