// A map of serials and a `BTreeMap` that are given the same calls.
use anyhow::{Result, ensure};
use std::alloc::Global;
use std::collections::BTreeMap;
use wm_base::Serial;
use wm_ordered::Slots;

#[derive(Drop)]
pub struct SlotPair {
    ours: Slots<u64>,
    other: BTreeMap<u64, u64>,
}

impl SlotPair {
    pub fn new(alloc: Global) -> SlotPair {
        SlotPair {
            ours: Slots::new(alloc),
            other: BTreeMap::new(alloc),
        }
    }

    /// Makes room for a number of pairs.
    pub fn reserve(&mut self, more: u32) -> Result<()> {
        self.ours.reserve(more)?;
        Ok(())
    }

    /// Puts in a key that may be there already.
    pub fn put(&mut self, key: u64, value: u64) -> Result<()> {
        self.ours.reserve(1)?;
        let serial = Serial::new(key);
        let is_there = self.ours.contains(serial);
        ensure!(is_there == self.other.contains_key(&key), "contains {key}");
        if !is_there {
            self.ours.insert(serial, value);
            self.other.insert(key, value)?;
        }
        Ok(())
    }

    /// Gives a key another value, where it is there.
    pub fn set(&mut self, key: u64, value: u64) -> Result<()> {
        let was = self.ours.set(Serial::new(key), value);
        ensure!(was == self.other.get(&key).copied(), "set {key}");
        if was.is_some() {
            self.other.insert(key, value)?;
        }
        Ok(())
    }

    /// Takes out a key that may not be there.
    pub fn take(&mut self, key: u64) -> Result<()> {
        let ours = self.ours.remove(Serial::new(key));
        ensure!(ours == self.other.remove(&key), "remove {key}");
        Ok(())
    }

    /// Compares what both answer about a key.
    pub fn compare(&self, key: u64) -> Result<()> {
        ensure!(self.ours.len() == self.other.len(), "len at {key}");
        ensure!(
            self.ours.get(Serial::new(key)) == self.other.get(&key).copied(),
            "get {key}"
        );
        let first = self
            .other
            .first_key_value()
            .map(|(key, value)| (*key, *value));
        ensure!(plain(self.ours.first()) == first, "first at {key}");
        let above = self
            .other
            .range(key.saturating_add(1)..)
            .next()
            .map(|(key, value)| (*key, *value));
        ensure!(
            plain(self.ours.first_above(Serial::new(key))) == above,
            "first above {key}"
        );
        Ok(())
    }

    pub fn len(&self) -> usize {
        self.other.len()
    }
}

// A pair by the number of its serial.
fn plain(pair: Option<(Serial, u64)>) -> Option<(u64, u64)> {
    pair.map(|(serial, value)| (serial.get(), value))
}
