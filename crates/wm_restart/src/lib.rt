//! What a new run makes of the rows of a store, and how it opens.
//!
//! The contract for the layer above: `read_rows` gives the state that rows make, as `AreGood` and `HasCounters` of `wm_tables`
//! say. `open_rows` gives the machine of the state that a run opens with, as `IsRestart` there says, and the changes that make
//! the found rows the tables of that state. Both answer the number of the first row that isn't good, as `IsBad` says.
//! The definitions are those of `wm_tables`; `specs/` has the parts of the state that is read (`Parts`), what lies in a
//! `Reading` (`ReadingInside`), how far rows are good (`Plausible`, `Restarted`), and the changes as the program makes them,
//! one after another (`Written`).
#![tactic(auto)]

mod ended;
mod first;
mod found;
mod job;
mod marks;
mod open;
mod reading;
mod replies;
mod restart;

pub use open::{Opened, open_rows};
pub use reading::{ReadParts, Reading};
pub use restart::{RestartFault, read_rows};
