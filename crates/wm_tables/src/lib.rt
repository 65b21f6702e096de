//! The tables of a store: the rows that a state has, the state that a new run makes of rows, the rows that a step changes, and what
//! follows over the runs of one store.
//!
//! The contract for the layer above: the definition `tables` says which rows a state has, `IsRestart` which state rows make,
//! and `IsBad` which row isn't good; `new_rows` says which rows of the state a run writes as it opens. The laws of `laws.rt` hold
//! for all states and rows.
//!
//! Before a step, `removed_number` tells what the row of an entry that is removed is found by; after it, `step_changes` gives the
//! changes as `AreStepChanges` says, by the call, its reply and what the step touched. A law of `change_laws.rt` says that these
//! are the difference of the tables before and after the step: they make the one of the other, and nothing is put that stands
//! there; two tables have one difference.
//!
//! `StartsOnce` says which serials a history orders to start, by the rows that its run found, and what the tables say of them
//! from then on. `IsChain` says which runs can follow one another over one store. The laws of `chain_laws.rt` hold for all of
//! them: good rows make one state, and bad rows none; a history starts each serial once; and over all runs of a chain no job is
//! started twice.
//!
//! The definitions are in `specs/`. Of tables: `Tables` (the rows of a state), `Restart` (what rows make), `Opened` (which rows are
//! new), `Ranges` (which states keep the ranges of what is stored of them), `Laws` (the laws). Of a step: `Difference` (the
//! difference of two tables), `Changes` (the changes of a step), `ChangeLaws` (the laws), and `Noted`, the changes of jobs as the
//! program finds them. Of several runs: `Starts` (what rows say of a serial, and which serials a history starts), `Chain` (runs
//! over one store), `ChainLaws` (the laws).
#![tactic(auto)]

mod calls;
mod chain_laws;
mod change_laws;
mod counting;
mod counts;
mod jobs;
mod laws;
mod noting;
mod standing;
mod step;

pub use calls::removed_number;
pub use chain_laws::{
    bad_rows_make_no_state, no_job_starts_twice, rows_make_one_state, runs_start_once,
};
pub use change_laws::{differences_are_one, step_changes_are_difference};
pub use counts::Counts;
pub use laws::{
    new_rows_make_tables, restarts_are_in_range, restarts_are_sound, row_commands_fit,
    steps_keep_ranges, tables_make_their_state,
};
pub use step::step_changes;
