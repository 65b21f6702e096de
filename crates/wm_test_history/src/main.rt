//! The cases of a floor, its history and its monitors: what each call answers and stores, what a keeper's fault leaves, and what a
//! run makes of the tables that the run before it left (`stored`); what a reading command shows (`listed`); and what two monitors do
//! beside a session (`monitors`).
//!
//! The texts of `data/` are played over a `wm_floor::Floor` with a keeper in memory, by turns in one thread. Each of these modules
//! says at its head which files it plays and what they ask. Where no other is set, each call has the moment 1000. What is printed,
//! and what must be printed, is the number of answers of each file.
#![tactic(auto)]

mod calls;
mod commands;
mod listed;
mod monitor_calls;
mod monitors;
mod opened;
mod passes;
mod replies;
mod stored;
mod watch;
mod words;

use anyhow::Result;

fn main(rt: HostRuntime) -> Result<()> {
    stored::play_stored(&rt)?;
    listed::play_listed(&rt)?;
    monitors::play_monitors(&rt)
}
