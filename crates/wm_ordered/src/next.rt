// The heads of a queue, one after another.
use crate::indexes::row_from;
use crate::keys::Spot;
use crate::{Waiter, WaitingJobs};
use std::sync::ledger::Ledger;
use wm_base::{Priority, QName, Steps};

impl WaitingJobs {
    ghost use Rattle.std.specs.Prelude.{◌≡◌, ◌+◌, MatchOption};
    ghost use Rattle.wm_ordered.specs.NextHeads.{HasNoHead, IsNextHead};

    /// The head of the first priority of a queue that has one, from a priority on. It is one look.
    pub fn next_head<L: Ledger>(
        &self,
        jobq: &QName,
        pty: Priority,
        steps: &mut Steps<L>,
    ) -> Option<Waiter>
        ensures head { MatchOption result (HasNoHead jobq.now pty self.now.clock self.now.items) (IsNextHead jobq.now pty self.now.clock self.now.items) }
        ensures look { steps.new ≡ steps.old + 1 }
    {
        steps.tick();
        // `len` tells that spots ascend, and that serials and places differ.
        self.len();
        self.turns.len();
        let begin = Spot {
            jobq: *jobq,
            pty,
            place: 0,
        };
        let Some((spot, serial)) = row_from(&self.turns, &begin) else {
            return None;
        };
        if spot.is_on(jobq) {
            self.waiter(serial)
        } else {
            None
        }
    }
}
