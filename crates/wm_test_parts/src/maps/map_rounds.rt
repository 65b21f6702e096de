// Rounds of calls.
use super::map_pair::MapPair;
use anyhow::{Result, ensure};
use std::alloc::Global;

// A prime number, so that the multiples of another one are each number below it, in a scrambled order.
const KEYS: u32 = 10_007;

fn scrambled_key(count: u32) -> u32 {
    count.wrapping_mul(7_919) % KEYS
}

fn compare_few(maps: &MapPair) -> Result<()> {
    for key in 0..11 {
        maps.compare(key)?;
    }
    Ok(())
}

fn put_few(maps: &mut MapPair) -> Result<()> {
    for key in [5, 2, 9, 5] {
        maps.put(key, u64::from(key))?;
        compare_few(maps)?;
    }
    Ok(())
}

fn set_few(maps: &mut MapPair) -> Result<()> {
    for key in [4, 5, 9, 5] {
        maps.set(key, u64::from(key) + 100)?;
        compare_few(maps)?;
    }
    Ok(())
}

fn take_few(maps: &mut MapPair) -> Result<()> {
    for key in [3, 5, 2, 5, 9] {
        maps.take(key)?;
        compare_few(maps)?;
    }
    ensure!(maps.len() == 0, "some are left");
    Ok(())
}

fn call_few(maps: &mut MapPair) -> Result<()> {
    maps.compare(5)?;
    maps.take(5)?;
    put_few(maps)?;
    set_few(maps)?;
    take_few(maps)
}

/// Each call on a map of few pairs: without one, with one, and with a key that is there already.
pub fn few_calls(alloc: Global) -> Result<()> {
    let mut maps = MapPair::new(alloc);
    let called = call_few(&mut maps);
    drop(maps);
    called
}

fn put_scrambled(maps: &mut MapPair) -> Result<usize> {
    for count in 0..KEYS {
        let key = scrambled_key(count);
        maps.put(key, u64::from(count))?;
        maps.compare(key)?;
        maps.compare(scrambled_key(key))?;
    }
    let pairs = maps.len();
    for key in 0..KEYS {
        maps.take(key)?;
        maps.compare(scrambled_key(key))?;
    }
    Ok(pairs)
}

/// Put in by a scrambled order, and taken out in order.
pub fn scrambled(alloc: Global) -> Result<usize> {
    let mut maps = MapPair::new(alloc);
    let pairs = put_scrambled(&mut maps);
    drop(maps);
    pairs
}

fn put_rising(maps: &mut MapPair) -> Result<usize> {
    for key in 0..KEYS {
        if key % 3 == 0 {
            maps.put(key, u64::from(key))?;
        }
        maps.set(scrambled_key(key), u64::from(key))?;
        maps.compare(scrambled_key(key))?;
    }
    let pairs = maps.len();
    for count in 0..KEYS {
        let key = scrambled_key(count);
        maps.take(key)?;
        maps.compare(key)?;
    }
    Ok(pairs)
}

/// Put in in order, every third key, with some set on the way, and taken out by a scrambled order.
pub fn rising(alloc: Global) -> Result<usize> {
    let mut maps = MapPair::new(alloc);
    let pairs = put_rising(&mut maps);
    drop(maps);
    pairs
}
