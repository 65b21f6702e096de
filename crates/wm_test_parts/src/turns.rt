// The turnstile: a counter with a list goes through it with 1, 2, 4, 8 and 16 threads.
//
// Nothing is read. What is printed, and what must be printed, is how many entries were made in each round; a round whose
// history isn't the one that its threads recorded says so instead. Passes are split off and joined while others call, and
// closing is tried while one is out. With the words LOCK THREADS ENTRIES MICROS one round is measured: LOCK is `turnstile` or
// `mutex`, and in each turn the thread sleeps for so many microseconds. Then it is printed how many entries were made, in how
// many microseconds, and how often a turn went to another thread than the one before.
ghost use Rattle.std.specs.Prelude.{◌<◌};

mod counter;
mod locked;
mod record;
mod round;

use anyhow::Result;
use locked::locked_round;
use record::Round;
use round::round;
use std::alloc::{AllocError, Global};
use std::sync::Wait;
use std::thread::Threads;
use std::time::{Clock, Instant};

// How many entries a round makes in all.
const ENTRIES: u32 = 100_000;

// The most threads of a round.
const MOST: u32 = 64;

fn case<R: Threads + Wait + Clock + Sync>(rt: &R, host: &HostRuntime, threads: u32) -> Result<()>
    requires some { 0 < threads }
    requires few { threads < 1000 }
{
    let made = round(rt, host.alloc(), threads, ENTRIES / threads, 0)?;
    let told = made.told(host.alloc())?;
    println!(host; "{threads} threads: {told}")?;
    Ok(())
}

/// Makes the rounds, and prints what came of each.
pub fn play_turns<R: Threads + Wait + Clock + Sync>(rt: &R, host: &HostRuntime) -> Result<()> {
    case(rt, host, 1)?;
    case(rt, host, 2)?;
    case(rt, host, 4)?;
    case(rt, host, 8)?;
    case(rt, host, 16)
}

// What is measured: so many threads, the turns of each, and how long one takes, in microseconds.
#[derive(Clone, Copy)]
struct Measure {
    threads: u32,
    turns: u32,
    micros: u64,
}

// A word that is no number counts as 1.
fn number_of(word: &str) -> u32 {
    word.parse().unwrap_or(1)
}

fn micros_of(word: &str) -> u64 {
    word.parse().unwrap_or(1)
}

// One round through the lock of this word.
fn measured_round<R: Threads + Wait + Clock + Sync>(
    rt: &R,
    alloc: Global,
    lock: &str,
    measure: Measure,
) -> Result<Round, AllocError>
    requires { measure.threads < 1000 }
{
    let Measure {
        threads,
        turns,
        micros,
    } = measure;
    if lock == "mutex" {
        locked_round(rt, alloc, threads, turns, micros)
    } else {
        round(rt, alloc, threads, turns, micros)
    }
}

fn tell_measured(host: &HostRuntime, made: &Round, taken: u128) -> Result<()> {
    let entries = made.notes.len();
    let hands = made.hand_overs();
    println!(host; "{entries} {taken} {hands}")?;
    Ok(())
}

/// Measures one round, by the words LOCK THREADS ENTRIES MICROS.
pub fn measure_turns<R: Threads + Wait + Clock + Sync>(
    rt: &R,
    host: &HostRuntime,
    words: &[String],
) -> Result<()> {
    let [lock, threads, entries, micros, ..] = words else {
        return Ok(());
    };
    let threads = number_of(threads.as_str()).clamp(1, MOST);
    let measure = Measure {
        threads,
        turns: number_of(entries.as_str()) / threads,
        micros: micros_of(micros.as_str()),
    };
    let start = Instant::now(rt)?;
    let made = measured_round(rt, host.alloc(), lock.as_str(), measure)?;
    tell_measured(host, &made, start.elapsed(rt)?.as_micros())
}
