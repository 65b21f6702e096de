// Rows of the jobs that wait, by a key of theirs.
ghost use Rattle.std.specs.Prelude.{◌≡◌, ℕ, ◌+◌, ◌≤◌, List, false, true, insert};
ghost use Rattle.wm_desc.specs.Sorted.{has_key, removed};
ghost use Rattle.wm_ordered.specs.Ordered.{key_of, first_from};
ghost use Rattle.wm_ordered.specs.Keys.{spot_of, rise_of, nothing_of};
ghost use Rattle.wm_ordered.specs.Orders.{spot_cmp, same_spot, same_rise};
ghost use Rattle.wm_ordered.specs.Waiting.{serial_of, is_up, is_ahead};
ghost use Rattle.wm_ordered.specs.Index.{IsIndex, capacity_of};

use crate::keys::{Rise, Spot};
use crate::{Ordered, Waiter};
use wm_base::{Moment, Serial};

/// What is lacking for a whole.
pub(crate) fn lacking(whole: u32, there: usize) -> u32
    ensures { whole ≤ there + result }
{
    (whole as usize).saturating_sub(there) as u32
}

// Puts in the row of a job that may have its turn.
fn put_turn(turns: &mut Ordered<Spot, Serial>, waiter: &Waiter)
    requires spare { 1 ≤ turns.old.spare }
    requires new { has_key key_of same_spot (spot_of waiter.now) turns.old.items ≡ false }
    ensures index { (clock : ℕ) (items : List Waiter) (i : ℕ) → is_up clock waiter.now ≡ true → IsIndex spot_of serial_of (is_up clock) items turns.old.items → IsIndex spot_of serial_of (is_up clock) (insert items i waiter.now) turns.new.items }
    ensures capacity { capacity_of turns.new ≡ capacity_of turns.old }
{
    turns.insert(Spot::of(waiter), waiter.serial);
}

// Puts in the row of a job that becomes due.
fn put_early(early: &mut Ordered<Rise, ()>, waiter: &Waiter)
    requires spare { 1 ≤ early.old.spare }
    requires new { has_key key_of same_rise (rise_of waiter.now) early.old.items ≡ false }
    ensures index { (clock : ℕ) (items : List Waiter) (i : ℕ) → is_ahead clock waiter.now ≡ true → IsIndex rise_of nothing_of (is_ahead clock) items early.old.items → IsIndex rise_of nothing_of (is_ahead clock) (insert items i waiter.now) early.new.items }
    ensures capacity { capacity_of early.new ≡ capacity_of early.old }
{
    early.insert(Rise::of(waiter), ());
}

/// Puts in the row of a job on its queue.
pub(crate) fn put_line(lines: &mut Ordered<Spot, Serial>, waiter: &Waiter)
    requires spare { 1 ≤ lines.old.spare }
    requires new { has_key key_of same_spot (spot_of waiter.now) lines.old.items ≡ false }
    ensures index { (items : List Waiter) (i : ℕ) → IsIndex spot_of serial_of (λ w. true) items lines.old.items → IsIndex spot_of serial_of (λ w. true) (insert items i waiter.now) lines.new.items }
    ensures capacity { capacity_of lines.new ≡ capacity_of lines.old }
{
    lines.insert(Spot::of(waiter), waiter.serial);
}

/// Puts a job into the index of its kind, where it has one.
pub(crate) fn enlist(
    turns: &mut Ordered<Spot, Serial>,
    early: &mut Ordered<Rise, ()>,
    clock: Moment,
    waiter: &Waiter,
)
    requires spare_turn { 1 ≤ turns.old.spare }
    requires spare_early { 1 ≤ early.old.spare }
    requires new_turn { has_key key_of same_spot (spot_of waiter.now) turns.old.items ≡ false }
    requires new_early { has_key key_of same_rise (rise_of waiter.now) early.old.items ≡ false }
    ensures turns { (items : List Waiter) (i : ℕ) → IsIndex spot_of serial_of (is_up clock) items turns.old.items → IsIndex spot_of serial_of (is_up clock) (insert items i waiter.now) turns.new.items }
    ensures early { (items : List Waiter) (i : ℕ) → IsIndex rise_of nothing_of (is_ahead clock) items early.old.items → IsIndex rise_of nothing_of (is_ahead clock) (insert items i waiter.now) early.new.items }
    ensures capacity_turns { capacity_of turns.new ≡ capacity_of turns.old }
    ensures capacity_early { capacity_of early.new ≡ capacity_of early.old }
{
    if waiter.due > clock {
        put_early(early, waiter);
    } else if !waiter.held {
        put_turn(turns, waiter);
    }
}

/// Takes out the row of a key, where it has one.
pub(crate) fn take_out<K: Ord + Copy, V: Copy>(rows: &mut Ordered<K, V>, key: &K)
    ensures items { rows.new.items ≡ removed key_of K.eq key.now rows.old.items }
    ensures capacity { capacity_of rows.new ≡ capacity_of rows.old }
{
    // `len` tells that a key has one row.
    rows.len();
    rows.remove(key);
}

/// The first row from a spot on. The first of all is looked at before, which compares once.
pub(crate) fn row_from(rows: &Ordered<Spot, Serial>, begin: &Spot) -> Option<(Spot, Serial)>
    ensures { result ≡ first_from spot_cmp begin.now rows.now.items }
{
    let Some(first) = rows.first() else {
        return None;
    };
    if first.0.cmp(begin).is_lt() {
        return rows.first_from(begin);
    }
    Some(first)
}
