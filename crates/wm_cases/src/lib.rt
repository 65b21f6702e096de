//! Cases of tests as texts: a file says what is asked, and which lines are the answer.
//!
//! A line `== NAME` begins a case, a line `> TEXT` asks something, and the lines behind it, up to the next of these or
//! to a blank line, are the answer that is wanted. `play` asks all of a file and tells each answer that is another one.
//! The crates of tests stand on it; `docs/TESTS.md` says how a case is written. No crate of the product uses it.
#![tactic(auto)]

mod bytes;
mod played;

pub use bytes::{bytes_of, visible};
pub use played::{Subject, play};
