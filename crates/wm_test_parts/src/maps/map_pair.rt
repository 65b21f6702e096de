// An ordered map and a `BTreeMap` that are given the same calls.
use anyhow::{Result, ensure};
use std::alloc::Global;
use std::collections::BTreeMap;
use wm_ordered::Ordered;

#[derive(Drop)]
pub struct MapPair {
    ours: Ordered<u32, u64>,
    other: BTreeMap<u32, u64>,
}

impl MapPair {
    pub fn new(alloc: Global) -> MapPair {
        MapPair {
            ours: Ordered::new(alloc),
            other: BTreeMap::new(alloc),
        }
    }

    /// Puts in a key that may be there already.
    pub fn put(&mut self, key: u32, value: u64) -> Result<()> {
        self.ours.reserve(1)?;
        let is_there = self.ours.contains(&key);
        ensure!(is_there == self.other.contains_key(&key), "contains {key}");
        if !is_there {
            self.ours.insert(key, value);
            self.other.insert(key, value)?;
        }
        Ok(())
    }

    /// Gives a key another value, where it is there.
    pub fn set(&mut self, key: u32, value: u64) -> Result<()> {
        let was = self.ours.set(&key, value);
        ensure!(was == self.other.get(&key).copied(), "set {key}");
        if was.is_some() {
            self.other.insert(key, value)?;
        }
        Ok(())
    }

    /// Takes out a key that may not be there.
    pub fn take(&mut self, key: u32) -> Result<()> {
        let ours = self.ours.remove(&key);
        ensure!(ours == self.other.remove(&key), "remove {key}");
        Ok(())
    }

    /// Compares what both answer about a key.
    pub fn compare(&self, key: u32) -> Result<()> {
        ensure!(self.ours.len() == self.other.len(), "len at {key}");
        ensure!(
            self.ours.get(&key) == self.other.get(&key).copied(),
            "get {key}"
        );
        let first = self
            .other
            .first_key_value()
            .map(|(key, value)| (*key, *value));
        ensure!(self.ours.first() == first, "first at {key}");
        let from = self
            .other
            .range(key..)
            .next()
            .map(|(key, value)| (*key, *value));
        ensure!(self.ours.first_from(&key) == from, "first from {key}");
        Ok(())
    }

    pub fn len(&self) -> usize {
        self.other.len()
    }
}
