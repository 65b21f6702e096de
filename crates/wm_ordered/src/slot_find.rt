// Where a serial stands among slots, and what is found there.
ghost use Rattle.std.specs.Prelude.{◌≡◌, ◌≤◌, true, length, drop, slice_get, IfSome, MatchResult};
ghost use Rattle.std.specs.Ordering.{nat_cmp};
ghost use Rattle.wm_desc.specs.Place.{IsAt, IsGap};
ghost use Rattle.wm_desc.specs.Sorted.{IsSortedOnce};
ghost use Rattle.wm_ordered.specs.Slots.{serial_of, pairs_in};

use crate::slot::Slot;
use std::cmp::Ordering;
use wm_base::Serial;

// Whether a serial is above those of all slots.
fn is_above_all<V: Copy>(slots: &[Slot<V>], serial: Serial) -> bool
    requires { IsSortedOnce serial_of nat_cmp slots.now }
    ensures { result ≡ true → IsGap serial_of nat_cmp serial slots.now (length slots.now) }
{
    match slots.last() {
        None => true,
        Some(last) => last.serial < serial,
    }
}

// Where the slot of a serial stands where all serials from the first on have one.
fn place_by_count<V: Copy>(slots: &[Slot<V>], serial: Serial) -> Option<usize>
    requires { IsSortedOnce serial_of nat_cmp slots.now }
    ensures { IfSome result (IsAt serial_of nat_cmp serial slots.now) }
{
    let first = slots.first()?;
    let at = serial.get().checked_sub(first.serial.get())? as usize;
    if slots.get(at)?.serial == serial {
        Some(at)
    } else {
        None
    }
}

// The same, by halves.
fn search<V: Copy>(slots: &[Slot<V>], serial: Serial) -> Result<usize, usize>
    requires { IsSortedOnce serial_of nat_cmp slots.now }
    ensures { MatchResult result (IsAt serial_of nat_cmp serial slots.now) (IsGap serial_of nat_cmp serial slots.now) }
{
    slots.binary_search_by(
        |slot: &Slot<V>| -> Ordering
            ensures { result ≡ nat_cmp slot.now.serial serial }
        { slot.serial.cmp(&serial) },
    )
}

/// Where the slot of a serial stands, or where it would go. It is one look where serials follow one another, and at the end.
pub(crate) fn place<V: Copy>(slots: &[Slot<V>], serial: Serial) -> Result<usize, usize>
    requires { IsSortedOnce serial_of nat_cmp slots.now }
    ensures { MatchResult result (IsAt serial_of nat_cmp serial slots.now) (IsGap serial_of nat_cmp serial slots.now) }
{
    if is_above_all(slots, serial) {
        return Err(slots.len());
    }
    match place_by_count(slots, serial) {
        Some(at) => Ok(at),
        None => search(slots, serial),
    }
}

/// The first pair from a slot on.
pub(crate) fn first_pair<V: Copy>(slots: &[Slot<V>], from: usize) -> Option<(Serial, V)>
    requires { from ≤ length slots.now }
    ensures { result ≡ slice_get (pairs_in (drop from slots.now)) 0 }
{
    for at in from..slots.len() {
        let slot = slots[at];
        if let Some(value) = slot.value {
            return Some((slot.serial, value));
        }
    }
    None
}
