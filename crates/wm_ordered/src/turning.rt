// The clock is turned back: those that wait are put into the indexes of their kinds anew.
ghost use Rattle.std.specs.Prelude.{◌≡◌, []};
ghost use Rattle.wm_ordered.specs.Index.{IsIndex, capacity_of};
ghost use Rattle.wm_ordered.specs.Keys.{waiters_of, spot_of, rise_of, nothing_of};
ghost use Rattle.wm_ordered.specs.Turning.{AreUnlisted, row_behind};
ghost use Rattle.wm_ordered.specs.Waiting.{serial_of, is_up, is_ahead};

use crate::indexes::{enlist, take_out};
use crate::keys::{Rise, Spot};
use crate::{Ordered, Slots, Waiter};
use wm_base::{Moment, Serial};

/// Takes out all rows.
pub(crate) fn take_all<K: Ord + Copy, V: Copy>(rows: &mut Ordered<K, V>)
    ensures items { rows.new.items ≡ [] }
    ensures capacity { capacity_of rows.new ≡ capacity_of rows.old }
{
    while let Some((key, _)) = rows.first() {
        take_out(rows, &key);
    }
}

// The row behind that of a serial, or the first of all.
fn row_behind(all: &Slots<Waiter>, last: Option<Serial>) -> Option<(Serial, Waiter)>
    ensures { result ≡ row_behind last all.now.items }
{
    match last {
        None => all.first(),
        Some(serial) => all.first_above(serial),
    }
}

/// Puts all jobs into the indexes of their kinds, in which there is none.
pub(crate) fn list_all(
    all: &Slots<Waiter>,
    turns: &mut Ordered<Spot, Serial>,
    early: &mut Ordered<Rise, ()>,
    clock: Moment,
)
    requires { AreUnlisted all.now turns.old early.old }
    ensures turns { IsIndex spot_of serial_of (is_up clock) (waiters_of all.now.items) turns.new.items }
    ensures early { IsIndex rise_of nothing_of (is_ahead clock) (waiters_of all.now.items) early.new.items }
    ensures capacity_turns { capacity_of turns.new ≡ capacity_of turns.old }
    ensures capacity_early { capacity_of early.new ≡ capacity_of early.old }
{
    let mut last = None;
    for _count in 0..all.len() {
        let Some(row) = row_behind(all, last) else {
            unreachable!()
        };
        // `len` tells that keys differ, so no index has more rows than there are jobs.
        turns.len();
        early.len();
        enlist(turns, early, clock, &row.1);
        last = Some(row.0);
    }
}
