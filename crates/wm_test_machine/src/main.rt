//! The cases of the machine and of its objects: what each command, each monitor's call and each refusal comes to; and of the rows
//! that its state is stored as (`rows`).
//!
//! The cases are the texts of `data/`, which `wm_cases` plays. In those of the machine a question is a CL text, which is called
//! on a `wm_core::Core`, or one of the words of `asked`. Each case begins with the state of an empty store, by the user QUSER, at
//! the moment 1000. What the files of rows ask is said in `rows`. What is printed, and what must be printed, is the number of
//! answers of each file.
#![tactic(auto)]

mod asked;
mod calls;
mod change;
mod list;
mod monitor;
mod object;
mod reply;
mod rows;
mod set;
mod shown;
mod tested;
mod text;
mod times;

use anyhow::Result;
use std::rt::Files;
use tested::Tested;
use wm_cases::play;

/// The files of the machine.
static FILES: [&str; 11] = [
    "objects.txt",
    "descriptions.txt",
    "opening.txt",
    "jobs.txt",
    "refusals.txt",
    "routing.txt",
    "launches.txt",
    "waiting.txt",
    "endings.txt",
    "prestart.txt",
    "pools.txt",
];

fn play_all<R: AllocGlobal + Files + Print>(rt: &R, tested: &mut Tested) -> Result<()> {
    for file in &FILES {
        play(rt, file, tested)?;
    }
    Ok(())
}

fn play_machine<R: AllocGlobal + Files + Print>(rt: &R) -> Result<()> {
    let mut tested = Tested::new(rt.alloc())?;
    let played = play_all(rt, &mut tested);
    drop(tested);
    played
}

fn main(rt: HostRuntime) -> Result<()> {
    play_machine(&rt)?;
    rows::play_rows(&rt)
}
