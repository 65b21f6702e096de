//! The machine's program: what computes its steps.
//!
//! The contract for the layer above: a contract sees a `Core` as the state of the definitions in `wm_law`, with the state
//! before the last step and whether that step can be taken back. `Core::opening` is the state that an empty store opens
//! with, `Core::stored` the state that a machine has from a store, and `Core::step` answers what the definition `step`
//! gives and leaves the state that it gives; after want of memory the state is as before. `Core::take_back` undoes the last
//! step without memory. The state is sound, so over a step no start passes a limit, and the jobs are launched in their
//! order. Nothing in it is due to end, so a step that tells nothing to end looks at the active jobs only where a moment has
//! come. `Core::pending` tells what waits for a monitor. `Machine` is what lies in a
//! `Core`, for those that look at it.
//!
//! A step can be taken back. Format: as it begins it keeps what the call may change of the objects and the held queues, copies of
//! the started subsystems, the stopped entries and the requests, the next number, the power, and a mark of the jobs
//! (`mark.rt`). What always holds: the state now with these put back is the state before (`before` of `Marks`). Algorithm: all
//! copies are made before anything changes; to take back, the copies are swapped in and the notes of the jobs are undone
//! (`taking_back.rt`). Prestart jobs are made one by one, by settling, STRSBS and STRPJ, so these may find no memory in the
//! middle: then the step is taken back.
//!
//! The definitions are in `specs/`: `LastStep` has what a contract sees of a `Core`, `MachineInside` what it sees of a
//! `Machine`, `Marks` what is kept of the state before a step, `Aside` what such a step leaves alone in any case, `Stored` the
//! state of a store, `Due` in which steps something can come due, `Drafts`, `Moved` and `Supplied` what the steps inside come
//! to.
#![tactic(auto)]

mod autos;
mod changing;
mod coming_due;
mod draft;
mod ending_jobs;
mod ending_subsystems;
mod holding;
mod leaving;
mod machine;
mod making;
mod mark;
mod moments;
mod opening;
mod pending;
mod prestarting;
mod queues;
mod reports;
mod schedules;
mod settling;
mod sound;
mod stored;
mod submitting;
mod subsystems;
mod supply;
mod supplying;
mod taking_back;
mod uses;

pub use machine::Machine;
pub use opening::Setup;
pub use sound::Core;
pub use stored::Kept;
pub use wm_making::opening_commands;
