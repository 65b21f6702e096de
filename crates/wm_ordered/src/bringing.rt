// Those that become due are brought from the index of the early ones to that of those that may have their turn.
ghost use Rattle.std.specs.Prelude.{◌≡◌, ◌<◌, true, false, length};
ghost use Rattle.wm_ordered.specs.Bringing.{IsUnderway, AreUnderway, AllAbove};
ghost use Rattle.wm_ordered.specs.Index.{IsIndex, capacity_of};
ghost use Rattle.wm_ordered.specs.Keys.{waiters_of, spot_of, rise_of, nothing_of};
ghost use Rattle.wm_ordered.specs.Waiting.{serial_of, is_up, is_ahead};

use crate::indexes::take_out;
use crate::keys::{Rise, Spot};
use crate::{Ordered, Slots, Waiter};
use wm_base::{Moment, Serial};

// Brings the first where it is due by a moment, and answers whether it was.
fn bring_first(
    all: &Slots<Waiter>,
    turns: &mut Ordered<Spot, Serial>,
    early: &mut Ordered<Rise, ()>,
    now: Moment,
) -> bool
    requires { AreUnderway now all.now turns.old early.old }
    ensures underway { IsUnderway now (waiters_of all.now.items) turns.new.items early.new.items }
    ensures done { result ≡ false → AllAbove now early.new.items }
    ensures kept { result ≡ false → length early.new.items ≡ length early.old.items }
    ensures less { result ≡ true → length early.new.items < length early.old.items }
    ensures capacity_turns { capacity_of turns.new ≡ capacity_of turns.old }
    ensures capacity_early { capacity_of early.new ≡ capacity_of early.old }
{
    // `len` tells that keys ascend, each once.
    all.len();
    turns.len();
    early.len();
    let Some(row) = early.first() else {
        return false;
    };
    let rise = row.0;
    if rise.due > now {
        return false;
    }
    let Some(waiter) = all.get(rise.serial) else {
        unreachable!()
    };
    take_out(early, &rise);
    if waiter.held {
        return true;
    }
    turns.insert(Spot::of(&waiter), waiter.serial);
    true
}

/// Brings all that are due by a moment.
pub(crate) fn bring_due(
    all: &Slots<Waiter>,
    turns: &mut Ordered<Spot, Serial>,
    early: &mut Ordered<Rise, ()>,
    now: Moment,
)
    requires { AreUnderway now all.now turns.old early.old }
    ensures turns { IsIndex spot_of serial_of (is_up now) (waiters_of all.now.items) turns.new.items }
    ensures early { IsIndex rise_of nothing_of (is_ahead now) (waiters_of all.now.items) early.new.items }
    ensures capacity_turns { capacity_of turns.new ≡ capacity_of turns.old }
    ensures capacity_early { capacity_of early.new ≡ capacity_of early.old }
{
    let mut brought = bring_first(all, turns, early, now);
    while brought {
        brought = bring_first(all, turns, early, now);
    }
}
