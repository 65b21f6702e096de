// Slots that are filled, emptied and let go.
ghost use Rattle.std.specs.Prelude.{◌≡◌, ◌+◌, ◌≤◌, ◌<◌, false, nat_eq, length, set, insert, is_some, vec_len, vec_capacity, MatchResult, Some};
ghost use Rattle.std.specs.Ordering.{nat_cmp};
ghost use Rattle.wm_desc.specs.Place.{IsAt, IsGap};
ghost use Rattle.wm_desc.specs.Sorted.{IsSortedOnce, has_key, added};
ghost use Rattle.wm_ordered.specs.Ordered.{key_of};
ghost use Rattle.wm_ordered.specs.Slots.{serial_of, pairs_in, slot_with, IsFree};

use crate::slot::Slot;
use crate::slot_find::place;
use wm_base::Serial;

/// Gives the slot of a place a serial and a value, or none.
pub(crate) fn write<V: Copy>(slots: &mut Vec<Slot<V>>, at: usize, serial: Serial, value: Option<V>)
    requires { at < length slots.old.items }
    ensures items { slots.new.items ≡ set slots.old.items at (slot_with serial value) }
    ensures capacity { vec_capacity slots.new ≡ vec_capacity slots.old }
{
    slots[at] = Slot { serial, value };
}

// Puts in a slot at a place, for which there is room.
fn put_in<V: Copy>(slots: &mut Vec<Slot<V>>, at: usize, serial: Serial, value: V)
    requires in_range { at ≤ length slots.old.items }
    requires room { vec_len slots.old < vec_capacity slots.old }
    ensures items { slots.new.items ≡ insert slots.old.items at (slot_with serial (Some value)) }
    ensures capacity { vec_capacity slots.new ≡ vec_capacity slots.old }
{
    let slot = Slot {
        serial,
        value: Some(value),
    };
    slots.insert(at, slot).unwrap();
}

// Lets the empty slots go.
fn compact<V: Copy>(slots: &mut Vec<Slot<V>>)
    requires { IsSortedOnce serial_of nat_cmp slots.old.items }
    ensures pairs { pairs_in slots.new.items ≡ pairs_in slots.old.items }
    ensures full { length slots.new.items ≡ length (pairs_in slots.new.items) }
    ensures sorted { IsSortedOnce serial_of nat_cmp slots.new.items }
    ensures capacity { vec_capacity slots.new ≡ vec_capacity slots.old }
{
    slots.retain(
        |slot: &Slot<V>| -> bool
            ensures { result ≡ is_some slot.now.value }
        { slot.value.is_some() },
    );
}

// Where the slot of a serial stands, or a place for it, with room for one more. Where there is none yet the empty slots are
// let go.
fn place_with_room<V: Copy>(slots: &mut Vec<Slot<V>>, serial: Serial) -> Result<usize, usize>
    requires sorted { IsSortedOnce serial_of nat_cmp slots.old.items }
    requires room { length (pairs_in slots.old.items) < vec_capacity slots.old }
    ensures place { MatchResult result (IsAt serial_of nat_cmp serial slots.new.items) (IsFree serial slots.new.items (vec_capacity slots.new)) }
    ensures sorted { IsSortedOnce serial_of nat_cmp slots.new.items }
    ensures pairs { pairs_in slots.new.items ≡ pairs_in slots.old.items }
    ensures capacity { vec_capacity slots.new ≡ vec_capacity slots.old }
{
    let found = place(slots, serial);
    if found.is_ok() || slots.len() < slots.capacity() {
        return found;
    }
    compact(slots);
    place(slots, serial)
}

/// Puts in the pair of a serial that isn't there.
pub(crate) fn put<V: Copy>(slots: &mut Vec<Slot<V>>, serial: Serial, value: V)
    requires sorted { IsSortedOnce serial_of nat_cmp slots.old.items }
    requires room { length (pairs_in slots.old.items) < vec_capacity slots.old }
    requires new { has_key key_of nat_eq serial (pairs_in slots.old.items) ≡ false }
    ensures pairs { pairs_in slots.new.items ≡ added key_of nat_cmp (serial, value) (pairs_in slots.old.items) }
    ensures len { length (pairs_in slots.new.items) ≡ length (pairs_in slots.old.items) + 1 }
    ensures sorted { IsSortedOnce serial_of nat_cmp slots.new.items }
    ensures capacity { vec_capacity slots.new ≡ vec_capacity slots.old }
{
    match place_with_room(slots, serial) {
        Ok(at) => write(slots, at, serial, Some(value)),
        Err(at) => put_in(slots, at, serial, value),
    }
}
