// The same round over std's `Mutex`, to be measured beside the turnstile's.
ghost use Rattle.std.specs.Thread.{IsSync};

use super::counter::Counter;
use super::record::{Record, Round};
use super::round::rest;
use std::alloc::{AllocError, Global};
use std::sync::{Mutex, Wait};
use std::thread::{Threads, join_mut};
use std::time::Clock;

// So many turns of a thread, with the places of its entries.
fn work<R: Wait + Clock>(
    rt: &R,
    alloc: Global,
    lock: &Mutex<Counter>,
    number: u32,
    turns: u32,
    micros: u64,
) -> Result<Record, AllocError> {
    let mut places = Vec::new(alloc);
    for _ in 0..turns {
        let mut counter = lock.lock(rt);
        let place = counter.add(number);
        rest(rt, micros);
        drop(counter);
        places.push(place.ok_or(AllocError)?)?;
    }
    Ok(Record { number, places })
}

// So many threads.
fn among<R: Threads + Wait + Clock + Sync>(
    rt: &R,
    alloc: Global,
    lock: &Mutex<Counter>,
    threads: u32,
    turns: u32,
    micros: u64,
    records: &mut Vec<Record>,
) -> Result<(), AllocError> {
    if threads == 0 {
        return Ok(());
    }
    let fewer = threads - 1;
    let (done, others) = join_mut(
        rt,
        &mut ||
            requires { IsSync R.row }
        { work(rt, alloc, lock, threads, turns, micros) },
        &mut ||
            requires { IsSync R.row }
        { among(rt, alloc, lock, fewer, turns, micros, records) },
    );
    others?;
    records.push(done?)?;
    Ok(())
}

/// A round of so many threads, each with so many entries.
pub fn locked_round<R: Threads + Wait + Clock + Sync>(
    rt: &R,
    alloc: Global,
    threads: u32,
    turns: u32,
    micros: u64,
) -> Result<Round, AllocError> {
    let lock = Mutex::new(Counter::new(alloc));
    let mut records = Vec::new(alloc);
    among(rt, alloc, &lock, threads, turns, micros, &mut records)?;
    let Counter { notes, marks: _ } = lock.into_inner();
    Ok(Round { notes, records })
}
