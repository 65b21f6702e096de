//! Tests of whole runs: scripts of commands with what a run over objects in memory writes, asks and records; and drills.
//!
//! Each question of `data/*.txt` either sets what the next run is given, or runs, or shows one part of what the run did;
//! `docs/TESTS.md` has them all. What no clause says is shown here: that runs succeed with ample memory, and that the
//! clauses mean what they should.
#![tactic(auto)]

mod given;
mod rows;
mod several;
mod shown;
mod stops;
mod subject;
mod told;

use anyhow::Result;
use std::rt::Files;
use stops::Stops;
use subject::Runs;
use wm_cases::{Subject, play};

/// The files of cases.
static FILES: [&str; 13] = [
    "scripts.txt",
    "faults.txt",
    "stores.txt",
    "reports.txt",
    "limits.txt",
    "order.txt",
    "launches.txt",
    "waiting.txt",
    "prestart.txt",
    "listings.txt",
    "endings.txt",
    "words.txt",
    "drill.txt",
];

fn play_all<R: AllocGlobal + Files + Print, S: Subject>(rt: &R, subject: &mut S) -> Result<()> {
    for file in &FILES {
        play(rt, file, subject)?;
    }
    Ok(())
}

fn main(rt: HostRuntime) -> Result<()> {
    let mut runs = Runs::new(&rt, rt.alloc())?;
    let played = play_all(&rt, &mut runs);
    drop(runs);
    played?;
    let mut stops = Stops::new(&rt, rt.alloc())?;
    let played = play(&rt, "stops.txt", &mut stops);
    drop(stops);
    played
}
