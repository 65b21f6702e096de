// What is due to end by the clock ends.
use crate::Machine;
use wm_base::{Moment, NoMemory};
use wm_law::Call;
use wm_subsystems::{
    Telling, has_come, is_ending_call, look_at_all, reserve_for_active, soonest, tell_all,
};

impl Machine {
    ghost use Rattle.std.specs.Prelude.{◌≡◌, false, OnOk, OnErr};
    ghost use Rattle.wm_law.specs.Settling.{come_due};
    ghost use Rattle.wm_core.specs.Due.{may_come_due};
    ghost use Rattle.wm_subsystems.specs.Walks.{AreInLine};

    /// Whether anything can come due in a step.
    pub(crate) fn may_come_due(&self, call: &Call, now: Moment) -> bool
        ensures { result ≡ may_come_due self.now.state call.now now }
    {
        is_ending_call(call) || has_come(now, soonest(self.table.next_wish(), self.next_ending()))
    }

    // What is due ends: first the subsystems, then the jobs. All memory is taken before anything is changed.
    fn end_due(&mut self) -> Result<(), NoMemory>
        requires line { AreInLine self.old.state.next_serial self.old.state.jobs }
        ensures ok { OnOk result (self.new.state ≡ come_due self.old.state) }
        ensures marks { self.new.marks ≡ self.old.marks }
        ensures err { OnErr result (self.new ≡ self.old) }
    {
        reserve_for_active(&mut self.table)?;
        let clock = self.table.clock();
        look_at_all(&mut self.started, clock);
        let started = &self.started;
        tell_all(&mut self.table, &Telling::Clock, clock, started);
        Ok(())
    }

    /// What is due ends, where anything can be due: else nothing is looked at. An `Err` is want of memory and leaves the
    /// state.
    pub(crate) fn come_due(&mut self, may: bool) -> Result<(), NoMemory>
        requires line { AreInLine self.old.state.next_serial self.old.state.jobs }
        requires none { may ≡ false → come_due self.old.state ≡ self.old.state }
        ensures ok { OnOk result (self.new.state ≡ come_due self.old.state) }
        ensures marks { self.new.marks ≡ self.old.marks }
        ensures err { OnErr result (self.new ≡ self.old) }
    {
        if !may {
            return Ok(());
        }
        self.end_due()?;
        Ok(())
    }
}
