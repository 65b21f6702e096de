// What was changed since the mark.
ghost use Rattle.std.specs.Prelude.{◌≡◌, ◌<◌, ◌∷◌, ◌++◌, [], length, vec_capacity};
ghost use Rattle.wm_jobs.specs.Marked.{standing_of, touched_of};

use crate::JobTable;
use crate::touched::{Mark, Standing, Touched};
use wm_law::Job;

/// How a job stands.
pub(crate) fn standing_of(job: &Job) -> Standing
    ensures { result ≡ standing_of job.now }
{
    Standing {
        phase: job.phase,
        how: job.how,
        wish: job.wish,
        held: job.held,
        due: job.due,
        jobq: job.jobq,
        pty: job.pty,
        place: job.place,
        uses: job.uses,
        evoke: job.evoke,
    }
}

/// Notes how a job stands that is to be changed. It takes no memory.
pub(crate) fn note(touched: &mut Vec<Touched>, job: &Job)
    requires { length touched.old.items < vec_capacity touched.old }
    ensures items { touched.new.items ≡ touched.old.items ++ touched_of job.now ∷ [] }
    ensures capacity { vec_capacity touched.new ≡ vec_capacity touched.old }
{
    let was = Standing {
        phase: job.phase,
        how: job.how,
        wish: job.wish,
        held: job.held,
        due: job.due,
        jobq: job.jobq,
        pty: job.pty,
        place: job.place,
        uses: job.uses,
        evoke: job.evoke,
    };
    touched.push_reserved(Touched {
        serial: job.serial,
        was,
    });
}

impl JobTable {
    ghost use Rattle.std.specs.Prelude.{◌≡◌, ◌≤◌, [], length, take, filter};
    ghost use Rattle.wm_jobs.specs.Marked.{undone, is_untouched};
    ghost use Rattle.wm_jobs.specs.Table.{present, IsReady};

    /// From here on changes can be taken back (`take_back`). What was changed before is kept as it is. It takes no memory.
    pub fn mark(&mut self)
        ensures jobs { self.new.jobs ≡ self.old.jobs }
        ensures clock { self.new.clock ≡ self.old.clock }
        ensures next_serial { self.new.next_serial ≡ self.old.next_serial }
        ensures next_place { self.new.next_place ≡ self.old.next_place }
        ensures spare { self.new.spare ≡ self.old.spare }
        ensures changes { self.new.changes ≡ self.old.changes }
        ensures ready { IsReady self.old → IsReady self.new }
        ensures marked { self.new.marked ≡ present self.old }
        ensures touched { self.new.touched ≡ [] }
    {
        // `len` tells that places differ.
        self.waiting.len();
        self.touched.clear();
        self.mark = Mark {
            jobs: self.jobs.len(),
            clock: self.waiting.clock(),
            next_serial: self.next_serial,
            next_place: self.next_place,
        };
    }

    /// How many jobs there were at the mark. Those that came since stand behind them.
    pub fn marked_jobs(&self) -> usize
        ensures count { result ≡ length self.now.marked.jobs }
        ensures there { result ≤ length self.now.jobs }
    {
        self.mark.jobs
    }

    /// What was touched since the mark, the newest last. All other jobs from before are what they were then.
    pub fn touched(&self) -> &[Touched]
        ensures list { result.now ≡ self.now.touched }
        ensures before { self.now.marked.jobs ≡ undone result.now (take (length self.now.marked.jobs) self.now.jobs) }
        ensures others { filter (is_untouched result.now) (take (length self.now.marked.jobs) self.now.jobs) ≡ filter (is_untouched result.now) self.now.marked.jobs }
    {
        &self.touched
    }
}
