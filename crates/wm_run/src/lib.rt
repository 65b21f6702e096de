//! A whole run: commands are read, the machine is called, the jobs are started and reported, and the replies are written.
//!
//! The contract for the program is that of `run`, which speaks of any source, sink, store, spawner and clock. The definitions are
//! in `specs/`.
#![tactic(auto)]

mod answer;
mod answered;
mod calls;
mod finish;
mod halt;
mod input;
mod kept_run;
mod laws;
mod log_lines;
mod parse;
mod parsed;
mod reads;
mod running;
mod seeing;
mod session;
mod settings;
mod statuses;
mod whole_run;
mod words;
mod write;

pub use answer::{is_power_down, is_refused};
pub use calls::{end_call, start_call, user_call};
pub use kept_run::run_kept;
pub use laws::{bad_rows_do_not_open, runs_make_chains};
pub use log_lines::log_bytes;
pub use parse::parse_line;
pub use parsed::Parsed;
pub use settings::Settings;
pub use statuses::{open_status, store_status};
pub use whole_run::{Ran, run};
pub use words::{NO_MEMORY, WRONG_WORDS, run_plan};
pub use write::write_all;
