// What was done since the mark is taken back. The jobs that came since leave, the last first; then each note is undone, the
// newest first, in the list and in what jobs are found and counted by. Each finds the room that it left or that was set
// aside.
use crate::JobTable;
use crate::counts::forget;
use crate::following::{follow, recount, rejoin};
use crate::marking::standing_of;
use crate::phases::is_ended;
use crate::places::{place, stand_at};
use wm_base::EndCause;
use wm_law::Phase;

impl JobTable {
    ghost use Rattle.std.specs.Prelude.{◌≡◌, ◌+◌, ◌<◌, ◌≤◌, [], length};

    /// Takes back all that was done since the mark. It takes no memory, and goes through what was noted and the jobs that
    /// came since, but through all that wait where the clock went on.
    pub fn take_back(&mut self)
        requires { length self.old.touched ≤ self.old.undos }
        ensures jobs { self.new.jobs ≡ self.old.marked.jobs }
        ensures clock { self.new.clock ≡ self.old.marked.clock }
        ensures next_serial { self.new.next_serial ≡ self.old.marked.next_serial }
        ensures next_place { self.new.next_place ≡ self.old.marked.next_place }
        ensures marked { self.new.marked ≡ self.old.marked }
    {
        self.drop_new();
        self.undo_touched();
        self.waiting.turn_back(self.mark.clock);
        self.next_serial = self.mark.next_serial;
        self.next_place = self.mark.next_place;
    }

    // The jobs that came since the mark leave.
    fn drop_new(&mut self)
        ensures jobs { length self.new.jobs ≡ length self.old.marked.jobs }
        ensures touched { self.new.touched ≡ self.old.touched }
        ensures undos { self.new.undos ≡ self.old.undos }
        ensures marked { self.new.marked ≡ self.old.marked }
    {
        while self.marked_jobs() < self.jobs.len() {
            self.drop_last();
        }
    }

    // What was noted is undone, the newest first.
    fn undo_touched(&mut self)
        requires room { length self.old.touched ≤ self.old.undos }
        requires all { length self.old.jobs ≡ length self.old.marked.jobs }
        ensures jobs { length self.new.jobs ≡ length self.old.jobs }
        ensures touched { self.new.touched ≡ [] }
        ensures marked { self.new.marked ≡ self.old.marked }
    {
        while !self.touched.is_empty() {
            self.undo_last();
        }
    }

    // The last job leaves, which came since the mark.
    fn drop_last(&mut self)
        requires { length self.old.marked.jobs < length self.old.jobs }
        ensures jobs { length self.old.jobs ≡ length self.new.jobs + 1 }
        ensures touched { self.new.touched ≡ self.old.touched }
        ensures undos { self.new.undos ≡ self.old.undos }
        ensures marked { self.new.marked ≡ self.old.marked }
    {
        let Some(job) = self.jobs.pop() else {
            unreachable!()
        };
        let mut ended = standing_of(&job);
        ended.phase = Phase::Ended(EndCause::Restarted);
        self.busy = recount(self.busy, &job, &ended);
        follow(
            &mut self.waiting,
            &mut self.tally,
            &mut self.starting,
            &mut self.active,
            &mut self.prestart,
            &mut self.names,
            &job,
            &ended,
        );
        forget(&mut self.names, job);
    }

    // What was noted last is undone.
    fn undo_last(&mut self)
        requires some { 1 ≤ length self.old.touched }
        requires room { length self.old.touched ≤ self.old.undos }
        requires all { length self.old.jobs ≡ length self.old.marked.jobs }
        ensures jobs { length self.new.jobs ≡ length self.old.jobs }
        ensures touched { length self.old.touched ≡ length self.new.touched + 1 }
        ensures room { length self.new.touched ≤ self.new.undos }
        ensures marked { self.new.marked ≡ self.old.marked }
    {
        let Some(touched) = self.touched.pop() else {
            unreachable!()
        };
        let Ok(at) = place(&self.jobs, touched.serial) else {
            return;
        };
        let job = &self.jobs[at];
        let had_ended = is_ended(&job.phase);
        self.busy = recount(self.busy, job, &touched.was);
        follow(
            &mut self.waiting,
            &mut self.tally,
            &mut self.starting,
            &mut self.active,
            &mut self.prestart,
            &mut self.names,
            job,
            &touched.was,
        );
        stand_at(&mut self.jobs, at, touched.serial, &touched.was);
        rejoin(&mut self.names, had_ended, &self.jobs[at]);
        self.undos -= 1;
    }
}
