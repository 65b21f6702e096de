// The jobs on a queue, one after another.
use crate::keys::Spot;
use crate::{Waiter, WaitingJobs};

impl WaitingJobs {
    ghost use Rattle.std.specs.Prelude.{◌≡◌};
    ghost use Rattle.wm_ordered.specs.Waiting.{next_on};

    /// The next of the jobs on a job's queue, held and early ones too: of those behind it the first by priority, then by
    /// place. It is one look.
    pub fn next_on(&self, after: &Waiter) -> Option<Waiter>
        ensures { result ≡ next_on after.now self.now.items }
    {
        // `len` tells that spots ascend, and that serials and places differ.
        self.len();
        self.lines.len();
        let Some((spot, serial)) = self.lines.first_above(&Spot::of(after)) else {
            return None;
        };
        if spot.is_on(&after.jobq) {
            self.waiter(serial)
        } else {
            None
        }
    }
}
