// Rounds of calls of a map of serials.
use super::slot_pair::SlotPair;
use anyhow::{Result, ensure};
use std::alloc::Global;

// A prime number, so that the multiples of another one are each number below it, in a scrambled order.
const KEYS: u64 = 2_003;

fn scrambled_key(count: u64) -> u64 {
    count.wrapping_mul(7_919) % KEYS
}

fn compare_below(maps: &SlotPair, end: u64) -> Result<()> {
    for key in 0..end {
        maps.compare(key)?;
    }
    Ok(())
}

fn put_few(maps: &mut SlotPair) -> Result<()> {
    for key in [5, 2, 9, 5, 7] {
        maps.put(key, key)?;
        compare_below(maps, 11)?;
    }
    Ok(())
}

fn set_few(maps: &mut SlotPair) -> Result<()> {
    for key in [4, 5, 9, 5] {
        maps.set(key, key + 100)?;
        maps.compare(key)?;
    }
    Ok(())
}

fn take_few(maps: &mut SlotPair) -> Result<()> {
    for key in [3, 5, 2, 5, 9, 7] {
        maps.take(key)?;
        maps.set(key, 1)?;
        compare_below(maps, 11)?;
    }
    ensure!(maps.len() == 0, "some are left");
    Ok(())
}

fn put_again(maps: &mut SlotPair) -> Result<()> {
    for key in [7, 3, 9, 11] {
        maps.put(key, key)?;
        compare_below(maps, 13)?;
    }
    Ok(())
}

fn call_few(maps: &mut SlotPair) -> Result<()> {
    maps.compare(5)?;
    maps.take(5)?;
    put_few(maps)?;
    set_few(maps)?;
    take_few(maps)?;
    put_again(maps)
}

/// Each call on few pairs: without one, with one, with a key that is there already, and with slots left empty before,
/// between and behind.
pub fn few_serials(alloc: Global) -> Result<()> {
    let mut maps = SlotPair::new(alloc);
    let called = call_few(&mut maps);
    drop(maps);
    called
}

fn pass(maps: &mut SlotPair) -> Result<usize> {
    for key in 0..KEYS {
        maps.put(key, key)?;
        let old = key.saturating_sub(20);
        if old % 5 != 0 {
            maps.take(old)?;
        }
        if old % 7 == 0 {
            maps.put(old, key)?;
        }
        maps.compare(old)?;
        maps.compare(scrambled_key(key))?;
    }
    Ok(maps.len())
}

/// Put in in order, each taken out soon and some put back, so that empty slots are let go again and again.
pub fn passing(alloc: Global) -> Result<usize> {
    let mut maps = SlotPair::new(alloc);
    let passed = pass(&mut maps);
    drop(maps);
    passed
}

fn put_all(maps: &mut SlotPair) -> Result<()> {
    for key in 0..KEYS {
        maps.put(key, key)?;
    }
    Ok(())
}

fn take_all(maps: &mut SlotPair) -> Result<()> {
    for count in 0..KEYS {
        maps.take(scrambled_key(count))?;
        maps.compare(count)?;
    }
    ensure!(maps.len() == 0, "some are left");
    Ok(())
}

fn put_all_back(maps: &mut SlotPair) -> Result<()> {
    for count in 0..KEYS {
        let key = scrambled_key(KEYS - 1 - count);
        maps.put(key, count)?;
        maps.compare(count)?;
    }
    Ok(())
}

fn put_and_take(maps: &mut SlotPair) -> Result<usize> {
    maps.reserve(2_003)?;
    put_all(maps)?;
    take_all(maps)?;
    put_all_back(maps)?;
    Ok(maps.len())
}

/// Put in in order, taken out by a scrambled order, and put back by another one.
pub fn put_back(alloc: Global) -> Result<usize> {
    let mut maps = SlotPair::new(alloc);
    let put = put_and_take(&mut maps);
    drop(maps);
    put
}
