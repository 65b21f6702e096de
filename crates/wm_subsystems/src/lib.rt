//! What ends jobs and started subsystems: ENDJOB, the wishes and the clock, what active jobs are told, and when subsystems
//! leave.
//!
//! The contract for the layer above: `end_job` is what ENDJOB makes of one job, an `Ending` or a refusal, and the law
//! `ending_ends_one_job` says that the definition of `wm_law` does that to the job in the state and nothing else. `deadline`
//! is the definition of that name: when a wish acts. `gone` is the definition `is_gone` of `wm_law`, by one count of the
//! tally of the active jobs' hows. `tell_all` tells each active job of a table what it is to be told, in the room that
//! `reserve_for_active` has made: to end with its subsystem or its prestart entry, or to end where the clock says so. The jobs
//! are then what the definitions of `wm_law` make of each of them, and no other job is looked at. `end_sbss` and
//! `look_at_all` bring subsystems into their phases, and the `drop_` calls take out those that are gone, and what waits in
//! those that end or for an entry that ends. `add_stop` and `add_stop_of` stop a prestart entry, `drop_stop` takes that back,
//! and `is_stopped` asks. `is_ending_call` tells which calls tell to end, and the smaller questions on phases, moments,
//! wishes and the power are answered, too. Only `reserve_for_active`, `add_stop` and `add_stop_of` take memory.
//! The definitions are in `specs/`: `OneJob` has what ENDJOB makes of a job, `Telling` which subsystems are meant and what a
//! job is told, `Walks` the walk over the active jobs, `Gone` which subsystems are gone by the counts of active jobs.
#![tactic(auto)]

mod deadlines;
mod due;
mod ending;
mod gone_sbs;
mod job_ending;
mod laws;
mod leaving;
mod meant;
mod moments;
mod one_job;
mod phases;
mod power;
mod stops;
mod told;
mod walk;
mod wishes;

pub use deadlines::{deadline, has_come, is_prestart};
pub use due::{is_ending_call, look_at_all};
pub use ending::{drop_entry_evokes, drop_evokes, end_phase, end_sbss, is_evoke_of};
pub use gone_sbs::{gone, is_ending};
pub use job_ending::Ending;
pub use laws::ending_ends_one_job;
pub use leaving::{drop_gone, drop_gone_evokes, drop_gone_stops};
pub use meant::{Telling, Those};
pub use moments::{ahead, sbs_moment, soonest};
pub use one_job::{end_job, has_wish, is_now, moment_after};
pub use power::{down_by, is_down, is_on};
pub use stops::{add_stop, add_stop_of, drop_stop, is_stopped};
pub use told::is_ending_by;
pub use walk::{reserve_for_active, tell_all};
pub use wishes::{handed_wish, now_cause};
