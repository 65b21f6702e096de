//! The cases of the parts that know nothing of the machine, one part after another: dates and from which moment on a job may
//! start (`dates`), the ordered maps and prestart jobs (`maps`), and the turnstile (`turns`).
//!
//! Each of these modules says at its head what is asked, and what must be printed. With the words LOCK THREADS ENTRIES MICROS
//! one round of the turnstile is measured, and nothing else is done (`turns`).
#![tactic(auto)]

mod dates;
mod maps;
mod turns;

use anyhow::Result;
use std::env;
use std::sync::Wait;
use std::thread::Threads;
use std::time::Clock;

fn play_parts<R: Threads + Wait + Clock + Sync>(rt: &R, host: &HostRuntime) -> Result<()> {
    dates::play_dates(host)?;
    maps::compare_maps(host)?;
    turns::play_turns(rt, host)
}

fn main(rt: HostRuntime) -> Result<()> {
    let words: Vec<String> = env::args(&rt)?.skip(1).collect(rt.alloc())?;
    if words.is_empty() {
        play_parts(&rt, &rt)
    } else {
        turns::measure_turns(&rt, &rt, words.as_slice())
    }
}
