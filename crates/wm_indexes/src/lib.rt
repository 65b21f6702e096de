//! What jobs are found by beside their list: the names that commands give them, the active jobs by serial, and the prestart jobs.
//!
//! The contract for the layer above: each index is seen as a list, or as what a list of jobs comes to. Its changes take no memory;
//! room is taken by `reserve` alone, and told by `spare`.
//!
//! A `JobNames` is the names of a list of jobs (`IsNames`) where each reference has the number of the jobs that it names and the
//! sum of their serials, modulo 2^64, and each full name with a serial as many rows as jobs. `JobNames::add` makes it the names of
//! one job more, `JobNames::end` of the same jobs with one of them ended. `JobNames::rejoin` takes such an end back,
//! `JobNames::forget` a last job that has ended. `JobNames::find` answers the serial of the one job that a reference names, or its
//! refusal, without a walk over the jobs.
//!
//! An `ActiveJobs` is the list of its pairs of a serial and an `Acting`, what of its wish acts, in ascending order of the serials,
//! each serial once. No call goes through the active jobs: the least moment of a wish above a clock is one look, and a monitor's
//! kills are found among those kills alone that are yet to be handed.
//!
//! A `PrestartJobs` is the list of its pairs of a serial and a `PrestartJob`, in ascending order of the serials, each serial once;
//! a `PrestartJob` is its entry, its number and whether it can take a request. `PrestartJobs::available` counts the available
//! jobs of an entry and `PrestartJobs::first_idle` finds its idle job of least number, each by one look. The law
//! `prestart_jobs_are_of_the_state` says that these are what the definitions of `wm_law` count and find among the jobs of a state.
//! `replenish`, `room` and `use_done` are the definitions of `wm_law`, without a loop.
//!
//! The definitions are in `specs/`. Of names: `Names` has what a contract sees of the names and of which jobs they are, `Namesakes`
//! the jobs of one reference and how a job joins and leaves them, `FullNames` the rows of full names and their order, `Refs` the
//! references without a number. Of active jobs: `Active` has what is found among them, `Moments` by what their moments and kills are
//! found, `Turns` the order in which moments come. Of prestart jobs: `Ready` has what is found among them, `OfJobs` those of a state,
//! `Supply` what the jobs that are made rest on, `Seats` by what idle and available ones are found. `Rows` has how the rows of some
//! jobs lie beside the map of all, and the room for both. `NamesInside`, `ActiveInside` and `PrestartInside`
//! say what lies in each index.
#![tactic(auto)]

mod acting;
mod active;
mod bounds;
mod full_names;
mod keys;
mod kills;
mod laws;
mod moments;
mod name_rows;
mod names;
mod namesakes;
mod numbers;
mod prestart;
mod prestart_job;
mod refs;
mod rows;
mod seat;
mod seats;
mod supply;
mod turn;
mod uses;

pub use acting::Acting;
pub use active::ActiveJobs;
pub use bounds::Supply;
pub use laws::prestart_jobs_are_of_the_state;
pub use names::JobNames;
pub use prestart::PrestartJobs;
pub use prestart_job::{PrestartEntry, PrestartJob, Readiness};
pub use supply::{replenish, room};
pub use uses::use_done;
