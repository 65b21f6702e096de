// The map.
use crate::edit::{put_in, set_value, take_out};
use crate::find::{least, least_above, least_from, value_of};
use crate::node::{NOWHERE, Node};
use crate::places::{give_place, take_place};
use std::alloc::{AllocError, Global};
use std::marker::Model;
use wm_base::NoMemory;

/// Pairs in ascending order of their keys, each key once. `spare` is for how many more pairs there is room.
#[derive(Drop)]
pub struct Ordered<K: Ord + Copy, V: Copy> {
    nodes: Vec<Node<K, V>>,
    root: u32,
    len: usize,
    // The places of the nodes that aren't in use.
    free: Vec<u32>,
    room: usize,
}

impl<K: Ord + Copy, V: Copy> Model for Ordered<K, V> {
    ghost use Rattle.std.specs.Prelude.{vec_capacity};
    ghost use Rattle.wm_ordered.specs.Ordered.{Pairs};

    ghost Value = { Pairs K V };

    ghost use Rattle.wm_ordered.specs.Tree.{seen, IsOrdered};

    ghost view = { λ a. seen a.nodes.items a.root a.len a.room };

    ghost invariant = { λ a. IsOrdered K.cmp a.nodes.items a.root a.len a.free.items a.room (vec_capacity a.nodes) (vec_capacity a.free) };
}

impl<K: Ord + Copy, V: Copy> Ordered<K, V> {
    ghost use Rattle.std.specs.Prelude.{◌≡◌, ◌+◌, ◌≤◌, [], length, false, is_some, slice_get, OnOk, OnErr, if◌then◌else◌};
    ghost use Rattle.wm_desc.specs.Sorted.{IsSortedOnce, has_key, added, removed};
    ghost use Rattle.wm_ordered.specs.Ordered.{key_of, value_at, with_value, first_from, first_above};

    /// The map without a pair.
    pub fn new(alloc: Global) -> Ordered<K, V>
        ensures items { result.items ≡ [] }
        ensures spare { result.spare ≡ 0 }
    {
        Ordered {
            nodes: Vec::new(alloc),
            root: NOWHERE,
            len: 0,
            free: Vec::new(alloc),
            room: 0,
        }
    }

    /// Makes room for a number of pairs. An `Err` is want of memory, or of numbers for so many pairs; it leaves all as it was.
    pub fn reserve(&mut self, more: u32) -> Result<(), NoMemory>
        ensures ok { OnOk result (more ≤ self.new.spare) }
        ensures items { self.new.items ≡ self.old.items }
        ensures spare { self.old.spare ≤ self.new.spare }
        ensures err { OnErr result (self.new ≡ self.old) }
    {
        let more = more as usize;
        if more <= self.room {
            return Ok(());
        }
        let whole = self.len.checked_add(more).ok_or(AllocError)?;
        if whole > NOWHERE as usize {
            return Err(AllocError);
        }
        self.nodes.reserve(whole - self.nodes.len())?;
        self.free.reserve(whole - self.free.len())?;
        self.room = more;
        Ok(())
    }

    pub fn len(&self) -> usize
        ensures len { result ≡ length self.now.items }
        ensures sorted { IsSortedOnce key_of K.cmp self.now.items }
    {
        self.len
    }

    /// Puts in the pair of a key that isn't there. It takes no memory.
    pub fn insert(&mut self, key: K, value: V)
        requires spare { 1 ≤ self.old.spare }
        requires new { has_key key_of K.eq key self.old.items ≡ false }
        ensures items { self.new.items ≡ added key_of K.cmp (key, value) self.old.items }
        ensures spare { self.old.spare ≡ self.new.spare + 1 }
    {
        let pair = (key, value);
        let place = take_place(&mut self.nodes, &mut self.free, pair);
        self.root = put_in(&mut self.nodes, self.root, place, pair, self.len);
        self.len += 1;
        self.room -= 1;
    }

    /// Takes out the pair of a key, and answers its value. It takes no memory.
    pub fn remove(&mut self, key: &K) -> Option<V>
        ensures value { result ≡ value_at K.eq key.now self.old.items }
        ensures items { self.new.items ≡ removed key_of K.eq key.now self.old.items }
        ensures spare { self.new.spare ≡ self.old.spare + (if is_some result then 1 else 0) }
    {
        let (root, taken) = take_out(&mut self.nodes, self.root, key, self.len);
        self.root = root;
        let Some(found) = taken else {
            return None;
        };
        give_place(&mut self.free, found.0);
        self.len -= 1;
        self.room += 1;
        Some(found.1)
    }

    /// Gives a key that is there another value, and answers the one that it had. It takes no memory.
    pub fn set(&mut self, key: &K, value: V) -> Option<V>
        ensures was { result ≡ value_at K.eq key.now self.old.items }
        ensures items { self.new.items ≡ with_value K.eq key.now value self.old.items }
        ensures spare { self.new.spare ≡ self.old.spare }
    {
        set_value(&mut self.nodes, self.root, key, value, self.len)
    }

    /// The value of a key.
    pub fn get(&self, key: &K) -> Option<V>
        ensures { result ≡ value_at K.eq key.now self.now.items }
    {
        value_of(&self.nodes, self.root, key, self.len)
    }

    /// Whether a key is there.
    pub fn contains(&self, key: &K) -> bool
        ensures { result ≡ has_key key_of K.eq key.now self.now.items }
    {
        self.get(key).is_some()
    }

    /// The pair of the least key.
    pub fn first(&self) -> Option<(K, V)>
        ensures { result ≡ slice_get self.now.items 0 }
    {
        least(&self.nodes, self.root, self.len)
    }

    /// The pair of the least key that isn't below a key.
    pub fn first_from(&self, key: &K) -> Option<(K, V)>
        ensures { result ≡ first_from K.cmp key.now self.now.items }
    {
        least_from(&self.nodes, self.root, key, self.len)
    }

    /// The pair of the least key above a key.
    pub fn first_above(&self, key: &K) -> Option<(K, V)>
        ensures { result ≡ first_above K.cmp key.now self.now.items }
    {
        least_above(&self.nodes, self.root, key, self.len)
    }
}
