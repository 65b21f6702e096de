// The end of all jobs that wait on a queue.
use crate::JobTable;
use wm_base::{EndCause, QName, Serial};

impl JobTable {
    ghost use Rattle.std.specs.Prelude.{◌≡◌, ◌^◌, ◌<◌, ◌≤◌, length, map, count_by};
    ghost use Rattle.std.specs.Option.{option_map};
    ghost use Rattle.std.specs.Ordering.{nat_cmp};
    ghost use Rattle.wm_desc.specs.Sorted.{IsSortedOnce};
    ghost use Rattle.wm_law.specs.Queues.{waits_on, cleared_from};
    ghost use Rattle.wm_ordered.specs.Waiting.{first_on};
    ghost use Rattle.wm_ordered.specs.Waiting.{serial_of as waiter_serial};
    ghost use Rattle.wm_pick.specs.Parts.{waiters};
    ghost use Rattle.wm_jobs.specs.Table.{serial_of, IsReady};

    /// Ends by CLEARED each job that waits on a queue, held ones too, and tells how many. It goes through those alone, and
    /// takes no memory.
    pub fn clear(&mut self, queue: &QName) -> u32
        ensures count { result ≡ count_by (waits_on queue.now) self.old.jobs }
        ensures jobs { self.new.jobs ≡ map (cleared_from queue.now) self.old.jobs }
        ensures clock { self.new.clock ≡ self.old.clock }
        ensures next_serial { self.new.next_serial ≡ self.old.next_serial }
        ensures next_place { self.new.next_place ≡ self.old.next_place }
        ensures spare { self.old.spare ≤ self.new.spare }
        ensures changes { self.new.changes ≡ self.old.changes }
        ensures ready { IsReady self.old → IsReady self.new }
        ensures marked { self.new.marked ≡ self.old.marked }
    {
        let mut cleared = 0;
        while let Some(serial) = self.first_on(queue) {
            self.end_waiting(serial, EndCause::Cleared);
            cleared += 1;
        }
        cleared
    }

    // The serial of the first job that waits on a queue. It also tells that serials ascend, and that a `u32` counts the jobs.
    fn first_on(&self, queue: &QName) -> Option<Serial>
        ensures first { result ≡ option_map waiter_serial (first_on queue.now (waiters self.now.jobs)) }
        ensures sorted { IsSortedOnce serial_of nat_cmp self.now.jobs }
        ensures few { length self.now.jobs < 2 ^ 32 }
    {
        let waiter = self.waiting.first_on(queue)?;
        Some(waiter.serial)
    }
}
