// What moves in the indexes where a job takes the place of the one of its serial.
ghost use Rattle.std.specs.Prelude.{◌≡◌, ℕ, List, true, nat_eq};
ghost use Rattle.wm_desc.specs.Sorted.{removed};
ghost use Rattle.wm_ordered.specs.Index.{IsIndex, capacity_of};
ghost use Rattle.wm_ordered.specs.Keys.{spot_of, rise_of, nothing_of};
ghost use Rattle.wm_ordered.specs.Moving.{IsFoundBy, Replaces, HasReplaced, IsListedAlike};
ghost use Rattle.wm_ordered.specs.Waiting.{serial_of, is_up, is_ahead, replaced};

use crate::indexes::{enlist, put_line, take_out};
use crate::keys::{Rise, Spot};
use crate::{Ordered, Waiter};
use wm_base::{Moment, Serial};

// Takes a job out of the index of its kind, where it has one.
fn delist(
    turns: &mut Ordered<Spot, Serial>,
    early: &mut Ordered<Rise, ()>,
    clock: Moment,
    waiter: &Waiter,
)
    ensures turns { (serial : ℕ) (items : List Waiter) → IsFoundBy serial waiter.now items → IsIndex spot_of serial_of (is_up clock) items turns.old.items → IsIndex spot_of serial_of (is_up clock) (removed serial_of nat_eq serial items) turns.new.items }
    ensures early { (serial : ℕ) (items : List Waiter) → IsFoundBy serial waiter.now items → IsIndex rise_of nothing_of (is_ahead clock) items early.old.items → IsIndex rise_of nothing_of (is_ahead clock) (removed serial_of nat_eq serial items) early.new.items }
    ensures capacity_turns { capacity_of turns.new ≡ capacity_of turns.old }
    ensures capacity_early { capacity_of early.new ≡ capacity_of early.old }
{
    if waiter.due > clock {
        take_out(early, &Rise::of(waiter));
    } else if !waiter.held {
        take_out(turns, &Spot::of(waiter));
    }
}

// Whether two jobs of one serial have the same row, or none, in the index of their kind.
fn is_listed_alike(clock: Moment, old: &Waiter, new: &Waiter) -> bool
    ensures { result ≡ true → IsListedAlike clock old.now new.now }
{
    if old.due > clock {
        return old.due == new.due;
    }
    new.due <= clock && old.held == new.held && Spot::of(old) == Spot::of(new)
}

/// Puts a job into the index of its kind in the place of the one of its serial. What stays there isn't touched.
pub(crate) fn relist(
    turns: &mut Ordered<Spot, Serial>,
    early: &mut Ordered<Rise, ()>,
    clock: Moment,
    old: &Waiter,
    new: &Waiter,
)
    requires turns { HasReplaced spot_of serial_of (is_up clock) new.now old.now turns.old }
    requires early { HasReplaced rise_of nothing_of (is_ahead clock) new.now old.now early.old }
    ensures turns { (items : List Waiter) → Replaces new.now old.now items → IsIndex spot_of serial_of (is_up clock) items turns.old.items → IsIndex spot_of serial_of (is_up clock) (replaced new.now items) turns.new.items }
    ensures early { (items : List Waiter) → Replaces new.now old.now items → IsIndex rise_of nothing_of (is_ahead clock) items early.old.items → IsIndex rise_of nothing_of (is_ahead clock) (replaced new.now items) early.new.items }
    ensures capacity_turns { capacity_of turns.new ≡ capacity_of turns.old }
    ensures capacity_early { capacity_of early.new ≡ capacity_of early.old }
{
    if is_listed_alike(clock, old, new) {
        return;
    }
    delist(turns, early, clock, old);
    // `len` tells that keys differ, so no index has more rows than there are jobs.
    turns.len();
    early.len();
    enlist(turns, early, clock, new);
}

/// Puts a job on its queue in the place of the one of its serial. What stays there isn't touched.
pub(crate) fn move_line(lines: &mut Ordered<Spot, Serial>, old: &Waiter, new: &Waiter)
    requires { HasReplaced spot_of serial_of (λ w. true) new.now old.now lines.old }
    ensures index { (items : List Waiter) → Replaces new.now old.now items → IsIndex spot_of serial_of (λ w. true) items lines.old.items → IsIndex spot_of serial_of (λ w. true) (replaced new.now items) lines.new.items }
    ensures capacity { capacity_of lines.new ≡ capacity_of lines.old }
{
    if Spot::of(old) == Spot::of(new) {
        return;
    }
    take_out(lines, &Spot::of(old));
    // `len` tells that keys differ, so there are no more rows than jobs.
    lines.len();
    put_line(lines, new);
}
