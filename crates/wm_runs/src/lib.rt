//! Runs over one store, one after another, by one call; and the drill: many jobs that are drawn from a seed are submitted, run by
//! objects in memory, and counted.
//!
//! The contract for the layer above is that of `runs` and of `drill`. Each of the runs answers for what `run` of `wm_run` answers
//! for, over what the one before it has left of the output and of the store. Where the store tells its rows to the end, the runs
//! make a chain, and no job is started twice in all of them.
//!
//! `drill` speaks of any sink. Of the run inside it says what `run` says, with the text of the seed as the input: its history is
//! one of the machine from the state of no rows, and its entries are those of the session over that text. Of the line it says that
//! its counts are those of that history.
//!
//! The definitions are in `specs/`. Of runs: `Turns` (runs, one after another), `Chained` (what they come to for the rows). Of the
//! drill: `Draws` (the numbers that are drawn), `Text` (the commands), `Counts` (what is counted, and the line), `Words` (the words),
//! `Drill` (what a drill goes by and comes to), and `Unfailing` (what never fails).
#![tactic(auto)]

mod counting;
mod counts;
mod draws;
mod replay;
mod sequence;
mod steady;
mod text;
mod whole_drill;
mod words;

pub use sequence::runs;
pub use text::drill_text;
pub use whole_drill::drill;
pub use words::drill_plan;
