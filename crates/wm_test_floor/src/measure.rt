// What `bench/floor.sh` measures.
//
// > submit THREADS CALLS     so many held SBMJOBs by so many threads in all: how many entries, in how many microseconds
// > log ENTRIES TIMES        so many looks at a history of so many entries, each of which makes any other caller wait: how many,
//                            in how many microseconds
ghost use Rattle.wm_floor.specs.Floor.{IsPassOf, IsSame};

use crate::keeper::TestKeeper;
use crate::round::{opened, round};
use crate::work::{Plan, Role, submit_held};
use anyhow::{Result, bail};
use std::alloc::Global;
use std::sync::Wait;
use std::thread::Threads;
use std::time::{Clock, Instant};
use wm_floor::{Floor, FloorPass};
use wm_traits::Keeper;

// The most threads that are measured.
const MOST: u32 = 64;

fn submit<R: Threads + Wait + Clock + Sync>(
    rt: &R,
    host: &HostRuntime,
    threads: u32,
    calls: u32,
) -> Result<()> {
    let threads = threads.clamp(1, MOST);
    let plan = Plan {
        threads,
        role: Role::Submitter,
        monitors: 0,
        acts: calls / threads,
        seed: 0,
    };
    let start = Instant::now(rt)?;
    let (made, keeper) = round(rt, host.alloc(), TestKeeper::new(host.alloc(), None), plan)?;
    drop(keeper);
    let taken = start.elapsed(rt)?.as_micros();
    let entries = made.log.len();
    println!(host; "{entries} {taken}")?;
    Ok(())
}

// How many microseconds so many looks at the history of so many entries take.
fn timed<K: Keeper, R: Wait + Clock>(
    rt: &R,
    alloc: Global,
    floor: &Floor<K>,
    pass: &mut FloorPass<K>,
    entries: u32,
    times: u32,
) -> Result<u128>
    requires own { IsPassOf floor.now pass.old }
    ensures own { IsPassOf floor.now pass.new }
    ensures same { IsSame pass.old pass.new }
{
    submit_held(rt, alloc, floor, pass, entries)?;
    let start = Instant::now(rt)?;
    for _ in 0..times {
        drop(floor.log(rt, alloc, pass)?);
    }
    Ok(start.elapsed(rt)?.as_micros())
}

fn log<R: Wait + Clock>(rt: &R, host: &HostRuntime, entries: u32, times: u32) -> Result<()> {
    let alloc = host.alloc();
    let (floor, mut zero) = opened(alloc, TestKeeper::new(alloc, None))?;
    let taken = timed(rt, alloc, &floor, &mut zero, entries, times);
    let closed = floor.close(zero);
    let Ok(closed) = closed else { unreachable!() };
    drop(closed);
    let taken = taken?;
    println!(host; "{times} {taken}")?;
    Ok(())
}

/// Measures what words say.
pub fn measured<R: Threads + Wait + Clock + Sync>(
    rt: &R,
    host: &HostRuntime,
    words: &[String],
) -> Result<()> {
    let [what, first, second, ..] = words else {
        bail!("submit THREADS CALLS or log ENTRIES TIMES");
    };
    let (first, second) = (first.parse::<u32>()?, second.parse::<u32>()?);
    if what.as_str() == "submit" {
        submit(rt, host, first, second)
    } else {
        log(rt, host, first, second)
    }
}
