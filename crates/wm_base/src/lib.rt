//! What the crates above speak of: names, numbers, texts, orders, causes and refusals, with their printing.
//!
//! The contract for the layer above: `Name::read` is Ok exactly for the bytes of a name, and keeps them.
//! The definitions are in `specs/`, one file for each type.
#![tactic(auto)]

mod args;
mod job;
mod limit;
mod name;
mod number;
mod qname;
mod refusal;
mod steps;
mod text;

/// Want of memory: its one name in public calls. It is std's error of an allocation, so what std answers is passed on
/// as it is.
pub type NoMemory = std::alloc::AllocError;

pub use args::Args;
pub use job::{Asked, Class, EndCause, Event, Exit, How, JobName, StartCause, StartOrder};
pub use limit::Limit;
pub use name::{BadName, NAME_LEN, Name, name_of};
pub use number::{JobNumber, Moment, Priority, Serial};
pub use qname::QName;
pub use refusal::{Key, Kind, PhaseWord, Refusal};
pub use steps::Steps;
pub use text::{Text, is_text};
