//! What a reading command shows of the state: the definition, and the program over lent parts of a state.
//!
//! The contract for the layer above: `Parts::view` gives `shown s ask` (`specs/Views.antt`) of each state that has the lent
//! parts (`specs/Parts.antt`). The history and what waits for a monitor are no views: `DSPLOG` reads the log.
//! `WRKACTJOB` looks at the active jobs alone, and `WRKJOBQ` at those that wait on its queue, once at each.
//! The orders of what is shown are in `specs/Sorted.antt`, the words of a job in `specs/Lines.antt`.
#![tactic(auto)]

mod choosing;
mod hosting;
mod lines;
mod orders;
mod parts;
mod queueing;
mod shown;
mod sorting;
mod views;

pub use parts::Parts;
pub use shown::{
    ActiveLine, ActiveLines, JobLine, JobLines, JobShown, QueueShown, SbsLine, SbsLines, Shown,
    Status,
};
