// A table of the jobs that a store has.

use crate::JobTable;
use crate::counts::put_waiter;
use std::alloc::Global;
use wm_base::NoMemory;
use wm_law::Job;

impl JobTable {
    ghost use Rattle.std.specs.Prelude.{◌≡◌, ◌+◌, ◌∷◌, ◌++◌, ◌<◌, ◌≤◌, [], true, false, is_some, All, IfOk};
    ghost use Rattle.wm_law.specs.Counts.{is_waiting, is_active};
    ghost use Rattle.wm_law.specs.Kept.{waiting_places};
    ghost use Rattle.wm_law.specs.Laws.{IsIn};
    ghost use Rattle.wm_jobs.specs.Stored.{AreStored};

    /// The table of the jobs that a store has, none of which is active, with the serial and the place that the next job has.
    /// The clock is 0. An `Err` is want of memory, or comes where there are more jobs than a table takes.
    pub fn stored(
        alloc: Global,
        jobs: Vec<Job>,
        next_serial: u64,
        next_place: u64,
    ) -> Result<JobTable, NoMemory>
        requires { AreStored next_serial next_place jobs.items }
        ensures jobs { IfOk result (λ table. table.jobs ≡ jobs.items) }
        ensures clock { IfOk result (λ table. table.clock ≡ 0) }
        ensures next_serial { IfOk result (λ table. table.next_serial ≡ next_serial) }
        ensures next_place { IfOk result (λ table. table.next_place ≡ next_place) }
    {
        let mut table = JobTable::empty(alloc, next_serial, next_place);
        for job in jobs {
            table.reserve(1)?;
            table.push_stored(job);
        }
        Ok(table)
    }

    // Adds a job that waits or has ended, with a serial above those of the jobs. It takes no memory.
    fn push_stored(&mut self, job: Job)
        requires spare { 1 ≤ self.old.spare }
        requires inactive { is_active job.phase ≡ false }
        requires queue { is_waiting job.phase ≡ true → is_some job.jobq ≡ true }
        requires serial { job.serial < self.old.next_serial }
        requires place { job.place < self.old.next_place }
        requires behind { All (λ j. j.serial < job.serial) self.old.jobs }
        requires free { is_waiting job.phase ≡ true → IsIn job.place (waiting_places self.old.jobs) → ⊥ }
        ensures jobs { self.new.jobs ≡ self.old.jobs ++ job ∷ [] }
        ensures clock { self.new.clock ≡ self.old.clock }
        ensures next_serial { self.new.next_serial ≡ self.old.next_serial }
        ensures next_place { self.new.next_place ≡ self.old.next_place }
        ensures spare { self.old.spare ≡ self.new.spare + 1 }
        ensures changes { self.new.changes ≡ self.old.changes }
        ensures marked { self.new.marked ≡ self.old.marked }
    {
        put_waiter(&mut self.waiting, &job);
        self.names.add(&job);
        self.jobs.push_reserved(job);
        self.room -= 1;
    }
}
