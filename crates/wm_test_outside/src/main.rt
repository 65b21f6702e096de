//! The cases of the outside: what its forms in memory and its adapters of the real things answer, call by call.
//!
//! The cases are the texts of `data/`, which `wm_cases` plays. `memory` has the words that make a form in memory, `system`
//! those that make an adapter; the calls of a source, a sink and a spawner are asked in the same words of both (`streams`,
//! `spawners`). Those of a store and its keepers are in `keepers` for the form in memory and in `sql_keepers` for SQLite, in
//! memory (`sql_memory.txt`) and in files (`sql_files.txt`), some of which SQLite itself has made (`bench/stores.py`); `rows`
//! reads the rows and changes of both. The children of `system.txt` are real programs, and its waits are ended by rings of
//! other threads, too (`bells`). Listeners, in memory and of the system, are asked in `listeners`.
#![tactic(auto)]

mod answers;
mod bells;
mod flaky;
mod keepers;
mod listeners;
mod memory;
mod orders;
mod rows;
mod spawners;
mod sql_keepers;
mod streams;
mod system;
mod words;

use anyhow::Result;
use bells::Ringer;
use listeners::play_listeners;
use memory::MemoryCases;
use sql_keepers::SqlCases;
use std::process::{Processes, SystemProcess};
use std::rt::Files;
use std::sync::Wait;
use std::thread::Threads;
use std::time::Clock;
use system::SystemCases;
use wm_cases::play;
use wm_children::SysSpawner;

fn play_both(rt: &HostRuntime, cases: &mut SqlCases) -> Result<()> {
    play(rt, "sql_memory.txt", cases)?;
    play(rt, "sql_files.txt", cases)
}

// The cases of SQLite, in memory and in files.
fn play_sql(rt: &HostRuntime) -> Result<()> {
    let mut cases = SqlCases::new(rt);
    let played = play_both(rt, &mut cases);
    drop(cases);
    played
}

// A function that lets its cases go on several ways out is proved for each. So they are let go by a call.
fn play_memory<R: AllocGlobal + Files + Print + Wait>(rt: &R) -> Result<()> {
    let mut cases = MemoryCases::new(rt.alloc(), rt);
    let played = play(rt, "memory.txt", &mut cases);
    drop(cases);
    played
}

// The cases of the adapters, over one spawner.
fn play_system<
    R: Processes<Started = SystemProcess> + Threads + Wait + Clock + Copy + Send + 'static,
>(rt: R, host: &HostRuntime) -> Result<()> {
    let mut spawner = SysSpawner::new(host.alloc(), rt)?;
    let ringer = Ringer::new(host.alloc(), rt)?;
    let played = play(
        host,
        "system.txt",
        &mut SystemCases::new(host.alloc(), &rt, &mut spawner, &ringer),
    );
    drop(spawner);
    played
}

fn main(rt: HostRuntime) -> Result<()> {
    play_memory(&rt)?;
    play_sql(&rt)?;
    play_system(rt, &rt)?;
    play_listeners(&rt, &rt)
}
