//! The words of the command line, and the plan that they are read as.
//!
//! The contract for the layer above: `read_words` answers the plan that `plan_of` makes of the words, or that they are none.
//! The definitions are in `specs/`: `Options` (options with their values, each in one word), `Values` (what the values say)
//! and `Plans` (which options each command has, their defaults and their ranges). `clap` is told each command's options, and
//! tells which stand in the words, and that none stands twice; `specs/Told.antt` has the command that it is told.
#![tactic(auto)]

mod joined;
mod made;
mod matched;
mod path;
mod plan;
mod read;
mod values;

pub use path::PathText;
pub use plan::{Addr, DrillPlan, ListenAt, Plan, RunPlan, ServePlan, WordFault};
pub use read::read_words;
