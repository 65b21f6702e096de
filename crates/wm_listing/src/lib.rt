//! What is said and shown: the text of a reply to a command and of the fault of a line that is no command, and the bytes of
//! a listing, lines with columns.
//!
//! The contract for the layer above: `said` gives the text `said_of`, `noted` the text `noted_text` of the reply to a
//! monitor's call, and `fault_line` the text `fault_text`, each without a line's end (`specs/Said.antt`). Of a command `said`
//! asks what `mention_of` gives alone, so a caller may keep that in its place. `listing` gives the bytes `listing_text` of what a reading command shows (`specs/Listing.antt`), and `log_listing` the bytes `log_text` of a
//! history (`specs/Log.antt`), which are also those that `push_entry` puts one after another, with `push_end` behind them. The
//! columns are in `specs/Columns.antt`, the words of a status and of a kind in `specs/Words.antt`.
#![tactic(auto)]

mod columns;
mod faults;
mod heads;
mod line_fault;
mod lines;
mod log;
mod mention;
mod replies;
mod whole;
mod words;

pub use faults::fault_line;
pub use line_fault::LineFault;
pub use log::{log_listing, push_entry};
pub use mention::{Mention, Subject};
pub use replies::{mention_of, noted, said};
pub use whole::{listing, push_end};
