// The map.
use crate::slot::Slot;
use crate::slot_edit::{put, write};
use crate::slot_find::{first_pair, place};
use std::alloc::{AllocError, Global};
use std::marker::Model;
use wm_base::{NoMemory, Serial};

/// Pairs in ascending order of their serials, each serial once. `spare` is for how many more pairs there is room.
#[derive(Drop)]
pub struct Slots<V: Copy> {
    slots: Vec<Slot<V>>,
    // How many slots have a value.
    len: usize,
    room: usize,
}

impl<V: Copy> Model for Slots<V> {
    ghost use Rattle.std.specs.Prelude.{ℕ, vec_capacity};
    ghost use Rattle.wm_ordered.specs.Ordered.{Pairs};

    ghost Value = { Pairs ℕ V };

    ghost use Rattle.wm_ordered.specs.Slots.{seen, AreSlots};

    ghost view = { λ a. seen a.slots.items a.room };

    ghost invariant = { λ a. AreSlots a.slots.items a.len a.room (vec_capacity a.slots) };
}

impl<V: Copy> Slots<V> {
    ghost use Rattle.std.specs.Prelude.{◌≡◌, ◌+◌, ◌≤◌, [], length, false, is_some, slice_get, nat_eq, OnOk, OnErr, if◌then◌else◌};
    ghost use Rattle.std.specs.Ordering.{nat_cmp};
    ghost use Rattle.wm_desc.specs.Sorted.{IsSortedOnce, has_key, added, removed};
    ghost use Rattle.wm_ordered.specs.Ordered.{key_of, value_at, with_value, first_above};

    /// The map without a pair.
    pub fn new(alloc: Global) -> Slots<V>
        ensures items { result.items ≡ [] }
        ensures spare { result.spare ≡ 0 }
    {
        Slots {
            slots: Vec::new(alloc),
            len: 0,
            room: 0,
        }
    }

    /// Makes room for a number of pairs. An `Err` is want of memory, or of numbers for so many pairs; it leaves all as it was.
    pub fn reserve(&mut self, more: u32) -> Result<(), NoMemory>
        ensures ok { OnOk result (more ≤ self.new.spare) }
        ensures items { self.new.items ≡ self.old.items }
        ensures spare { self.old.spare ≤ self.new.spare }
        ensures err { OnErr result (self.new ≡ self.old) }
    {
        let more = more as usize;
        if more <= self.room {
            return Ok(());
        }
        let whole = self.len.checked_add(more).ok_or(AllocError)?;
        let twice = whole.checked_mul(2).ok_or(AllocError)?;
        self.slots.reserve(twice.saturating_sub(self.slots.len()))?;
        self.room = more;
        Ok(())
    }

    pub fn len(&self) -> usize
        ensures len { result ≡ length self.now.items }
        ensures sorted { IsSortedOnce key_of nat_cmp self.now.items }
    {
        self.len
    }

    /// Puts in the pair of a serial that isn't there. It takes no memory.
    pub fn insert(&mut self, serial: Serial, value: V)
        requires spare { 1 ≤ self.old.spare }
        requires new { has_key key_of nat_eq serial self.old.items ≡ false }
        ensures items { self.new.items ≡ added key_of nat_cmp (serial, value) self.old.items }
        ensures spare { self.old.spare ≡ self.new.spare + 1 }
    {
        put(&mut self.slots, serial, value);
        self.len += 1;
        self.room -= 1;
    }

    /// Takes out the pair of a serial, and answers its value. It takes no memory.
    pub fn remove(&mut self, serial: Serial) -> Option<V>
        ensures value { result ≡ value_at nat_eq serial self.old.items }
        ensures items { self.new.items ≡ removed key_of nat_eq serial self.old.items }
        ensures spare { self.new.spare ≡ self.old.spare + (if is_some result then 1 else 0) }
    {
        let Ok(at) = place(&self.slots, serial) else {
            return None;
        };
        let Some(value) = self.slots[at].value else {
            return None;
        };
        write(&mut self.slots, at, serial, None);
        self.len -= 1;
        self.room += 1;
        Some(value)
    }

    /// Gives a serial that is there another value, and answers the one that it had. It takes no memory.
    pub fn set(&mut self, serial: Serial, value: V) -> Option<V>
        ensures was { result ≡ value_at nat_eq serial self.old.items }
        ensures items { self.new.items ≡ with_value nat_eq serial value self.old.items }
        ensures spare { self.new.spare ≡ self.old.spare }
    {
        let Ok(at) = place(&self.slots, serial) else {
            return None;
        };
        let Some(was) = self.slots[at].value else {
            return None;
        };
        write(&mut self.slots, at, serial, Some(value));
        Some(was)
    }

    /// The value of a serial.
    pub fn get(&self, serial: Serial) -> Option<V>
        ensures { result ≡ value_at nat_eq serial self.now.items }
    {
        match place(&self.slots, serial) {
            Ok(at) => self.slots[at].value,
            Err(_) => None,
        }
    }

    /// Whether a serial is there.
    pub fn contains(&self, serial: Serial) -> bool
        ensures { result ≡ has_key key_of nat_eq serial self.now.items }
    {
        self.get(serial).is_some()
    }

    /// The pair of the least serial.
    pub fn first(&self) -> Option<(Serial, V)>
        ensures { result ≡ slice_get self.now.items 0 }
    {
        first_pair(&self.slots, 0)
    }

    /// The pair of the least serial above a serial.
    pub fn first_above(&self, serial: Serial) -> Option<(Serial, V)>
        ensures { result ≡ first_above nat_cmp serial self.now.items }
    {
        match place(&self.slots, serial) {
            Ok(at) => first_pair(&self.slots, at + 1),
            Err(at) => first_pair(&self.slots, at),
        }
    }
}
