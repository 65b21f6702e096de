// What is done to a job that is used.
use crate::JobTable;
use wm_base::{Limit, Serial};
use wm_indexes::use_done;

impl JobTable {
    ghost use Rattle.std.specs.Prelude.{◌≡◌, ◌+◌, ◌≤◌, map};
    ghost use Rattle.wm_law.specs.Jobs.{active_at};
    ghost use Rattle.wm_law.specs.Prestart.{after_use, with_evoke};
    ghost use Rattle.wm_jobs.specs.Table.{IsReady};

    /// Gives the job of a serial, where it is active, a request: it is used once more. At their greatest value its uses stay. It
    /// takes no memory.
    pub fn give_evoke(&mut self, serial: Serial)
        requires changes { 1 ≤ self.old.changes }
        ensures jobs { self.new.jobs ≡ map (active_at serial with_evoke) self.old.jobs }
        ensures clock { self.new.clock ≡ self.old.clock }
        ensures next_serial { self.new.next_serial ≡ self.old.next_serial }
        ensures next_place { self.new.next_place ≡ self.old.next_place }
        ensures spare { self.old.spare ≤ self.new.spare }
        ensures changes { self.old.changes ≤ self.new.changes + 1 }
        ensures ready { IsReady self.old → IsReady self.new }
        ensures marked { self.new.marked ≡ self.old.marked }
    {
        let Some(found) = self.found_active(serial) else {
            return;
        };
        let mut standing = found.was;
        standing.evoke = true;
        standing.uses = standing.uses.saturating_add(1);
        self.restand(serial, &found, &standing);
    }

    /// The use of the job of a serial is done, where it is active: it has no request any more, and its wish is that after a use.
    /// It takes no memory.
    pub fn end_use(&mut self, serial: Serial, maxuse: &Limit)
        requires changes { 1 ≤ self.old.changes }
        ensures jobs { self.new.jobs ≡ map (active_at serial (after_use maxuse.now)) self.old.jobs }
        ensures clock { self.new.clock ≡ self.old.clock }
        ensures next_serial { self.new.next_serial ≡ self.old.next_serial }
        ensures next_place { self.new.next_place ≡ self.old.next_place }
        ensures spare { self.old.spare ≤ self.new.spare }
        ensures changes { self.old.changes ≤ self.new.changes + 1 }
        ensures ready { IsReady self.old → IsReady self.new }
        ensures marked { self.new.marked ≡ self.old.marked }
    {
        let Some(found) = self.found_active(serial) else {
            return;
        };
        let mut standing = found.was;
        standing.evoke = false;
        standing.wish = use_done(&standing.wish, standing.uses, maxuse);
        self.restand(serial, &found, &standing);
    }
}
