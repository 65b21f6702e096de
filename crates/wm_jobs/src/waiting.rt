// What is done to a job that waits.
use crate::JobTable;
use wm_base::{EndCause, Moment, Serial};
use wm_law::{Chgjob, Phase};

impl JobTable {
    ghost use Rattle.std.specs.Prelude.{◌≡◌, ◌+◌, ◌^◌, ◌<◌, ◌≤◌, map};
    ghost use Rattle.wm_law.specs.declared.job.Phase.TheVariants.{Ended};
    ghost use Rattle.wm_law.specs.Changing.{moved_to, with_due};
    ghost use Rattle.wm_law.specs.Holding.{with_held};
    ghost use Rattle.wm_law.specs.Jobs.{waiting_at};
    ghost use Rattle.wm_law.specs.Reports.{in_phase};
    ghost use Rattle.wm_jobs.specs.Table.{IsReady};

    /// Holds the job of a serial, where it waits, or releases it. It takes no memory.
    pub fn set_held(&mut self, serial: Serial, held: bool)
        requires changes { 1 ≤ self.old.changes }
        ensures jobs { self.new.jobs ≡ map (waiting_at serial (with_held held)) self.old.jobs }
        ensures clock { self.new.clock ≡ self.old.clock }
        ensures next_serial { self.new.next_serial ≡ self.old.next_serial }
        ensures next_place { self.new.next_place ≡ self.old.next_place }
        ensures spare { self.old.spare ≤ self.new.spare }
        ensures changes { self.old.changes ≤ self.new.changes + 1 }
        ensures ready { IsReady self.old → IsReady self.new }
        ensures marked { self.new.marked ≡ self.old.marked }
    {
        let Some(found) = self.found_waiting(serial) else {
            return;
        };
        let mut standing = found.was;
        standing.held = held;
        self.restand(serial, &found, &standing);
    }

    /// Gives the job of a serial, where it waits, another due moment. It takes no memory.
    pub fn set_due(&mut self, serial: Serial, due: Moment)
        requires changes { 1 ≤ self.old.changes }
        ensures jobs { self.new.jobs ≡ map (waiting_at serial (with_due due)) self.old.jobs }
        ensures clock { self.new.clock ≡ self.old.clock }
        ensures next_serial { self.new.next_serial ≡ self.old.next_serial }
        ensures next_place { self.new.next_place ≡ self.old.next_place }
        ensures spare { self.old.spare ≤ self.new.spare }
        ensures changes { self.old.changes ≤ self.new.changes + 1 }
        ensures ready { IsReady self.old → IsReady self.new }
        ensures marked { self.new.marked ≡ self.old.marked }
    {
        let Some(found) = self.found_waiting(serial) else {
            return;
        };
        let mut standing = found.was;
        standing.due = due;
        self.restand(serial, &found, &standing);
    }

    /// Gives the job of a serial, where it waits, the queue and the priority of a command, the next place, and a due moment.
    /// It takes no memory.
    pub fn move_to(&mut self, serial: Serial, command: &Chgjob, due: Moment)
        requires place_fits { self.old.next_place + 1 < 2 ^ 64 }
        requires changes { 1 ≤ self.old.changes }
        ensures jobs { self.new.jobs ≡ map (waiting_at serial (moved_to command.now self.old.next_place due)) self.old.jobs }
        ensures clock { self.new.clock ≡ self.old.clock }
        ensures next_serial { self.new.next_serial ≡ self.old.next_serial }
        ensures next_place { self.new.next_place ≡ self.old.next_place + 1 }
        ensures spare { self.old.spare ≤ self.new.spare }
        ensures changes { self.old.changes ≤ self.new.changes + 1 }
        ensures ready { IsReady self.old → IsReady self.new }
        ensures marked { self.new.marked ≡ self.old.marked }
    {
        let place = self.next_place;
        self.next_place += 1;
        let Some(found) = self.found_waiting(serial) else {
            return;
        };
        let mut standing = found.was;
        standing.jobq = command.jobq.or(standing.jobq);
        standing.pty = command.jobpty.unwrap_or(standing.pty);
        standing.place = place;
        standing.due = due;
        self.restand(serial, &found, &standing);
    }

    /// Ends the job of a serial, where it waits. It takes no memory.
    pub fn end_waiting(&mut self, serial: Serial, cause: EndCause)
        ensures jobs { self.new.jobs ≡ map (waiting_at serial (in_phase (Ended cause))) self.old.jobs }
        ensures clock { self.new.clock ≡ self.old.clock }
        ensures next_serial { self.new.next_serial ≡ self.old.next_serial }
        ensures next_place { self.new.next_place ≡ self.old.next_place }
        ensures spare { self.old.spare ≤ self.new.spare }
        ensures changes { self.new.changes ≡ self.old.changes }
        ensures ready { IsReady self.old → IsReady self.new }
        ensures marked { self.new.marked ≡ self.old.marked }
    {
        let Some(found) = self.found_waiting(serial) else {
            return;
        };
        let mut standing = found.was;
        standing.phase = Phase::Ended(cause);
        self.restand(serial, &found, &standing);
    }
}
