//! Stops of the disk under a keeper of SQLite's rows: what is found when the store is opened again.
//!
//! A case of `data/stops.txt` is a script of a keeper's calls, of kills and of closes (`script`). `stop log 1000` runs it over
//! files in memory, again and again: the first call of the log fails and each one behind it, then the second, and so on, up
//! to the run in which none does (`stops`). Behind each run the store is opened over all that a stop may leave of its files
//! (`disks`), and its rows are to be those from before or after the step in which the run has ended. The answer has the steps
//! in which there were stops, and a line for each stop that leaves anything else. `stores` is the store over such files.
#![tactic(auto)]

mod disks;
mod script;
mod stops;
mod stores;

use anyhow::Result;
use stops::StopCases;
use wm_cases::play;

fn main(rt: HostRuntime) -> Result<()> {
    let mut cases = StopCases::new(rt.alloc());
    let played = play(&rt, "stops.txt", &mut cases);
    drop(cases);
    played
}
