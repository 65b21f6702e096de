// A job that is there comes to stand otherwise.
use crate::JobTable;
use crate::following::{follow, recount, spent};
use crate::marking::{note, standing_of};
use crate::phases::{is_active, is_waiting};
use crate::places::{place, stand_at};
use crate::touched::{Found, Standing};
use wm_base::Serial;

impl JobTable {
    ghost use Rattle.std.specs.Prelude.{◌≡◌, ◌+◌, true, map, MatchOption};
    ghost use Rattle.wm_law.specs.Counts.{is_waiting, is_active};
    ghost use Rattle.wm_law.specs.Jobs.{changed_at, waiting_at, active_at};
    ghost use Rattle.wm_jobs.specs.Marked.{standing_as};
    ghost use Rattle.wm_jobs.specs.Standings.{spent, IsFound, LeavesAll, MayStand};
    ghost use Rattle.wm_jobs.specs.Table.{IsReady};

    /// Where the job of a serial stands, and how.
    pub(crate) fn found(&self, serial: Serial) -> Option<Found>
        ensures { MatchOption result (LeavesAll (changed_at serial) self.now.jobs) (λ f. IsFound self.now serial f) }
    {
        // `len` tells that places differ.
        self.waiting.len();
        let Ok(at) = place(&self.jobs, serial) else {
            return None;
        };
        let was = standing_of(&self.jobs[at]);
        Some(Found { at, was })
    }

    /// Where the job of a serial stands, and how, where it waits.
    pub(crate) fn found_waiting(&self, serial: Serial) -> Option<Found>
        ensures { MatchOption result (LeavesAll (waiting_at serial) self.now.jobs) (λ f. IsFound self.now serial f × (is_waiting f.was.phase ≡ true)) }
    {
        let Some(found) = self.found(serial) else {
            return None;
        };
        if is_waiting(&found.was.phase) {
            Some(found)
        } else {
            None
        }
    }

    /// Where the job of a serial stands, and how, where it is active.
    pub(crate) fn found_active(&self, serial: Serial) -> Option<Found>
        ensures { MatchOption result (LeavesAll (active_at serial) self.now.jobs) (λ f. IsFound self.now serial f × (is_active f.was.phase ≡ true)) }
    {
        let Some(found) = self.found(serial) else {
            return None;
        };
        if is_active(&found.was.phase) {
            Some(found)
        } else {
            None
        }
    }

    /// The job of a serial, which is found there, comes to stand like that. How it stood is noted. It takes no memory.
    pub(crate) fn restand(&mut self, serial: Serial, found: &Found, standing: &Standing)
        requires found { IsFound self.old serial found.now }
        requires may { MayStand self.old serial found.now.was standing.now }
        ensures jobs { self.new.jobs ≡ map (changed_at serial (standing_as standing.now)) self.old.jobs }
        ensures clock { self.new.clock ≡ self.old.clock }
        ensures next_serial { self.new.next_serial ≡ self.old.next_serial }
        ensures next_place { self.new.next_place ≡ self.old.next_place }
        ensures spare { self.new.spare ≡ self.old.spare }
        ensures changes { self.new.changes + spent found.now.was.phase standing.now.phase ≡ self.old.changes }
        ensures ready { IsReady self.old → IsReady self.new }
        ensures marked { self.new.marked ≡ self.old.marked }
    {
        let job = &self.jobs[found.at];
        note(&mut self.touched, job);
        self.changes -= spent(&job.phase, &standing.phase);
        self.busy = recount(self.busy, job, standing);
        follow(
            &mut self.waiting,
            &mut self.tally,
            &mut self.starting,
            &mut self.active,
            &mut self.prestart,
            &mut self.names,
            job,
            standing,
        );
        stand_at(&mut self.jobs, found.at, serial, standing);
        // `len` tells that places differ.
        self.waiting.len();
    }
}
