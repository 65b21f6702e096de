//! The outside as the layers above see it: where bytes come from and go to, what time it is, what starts programs, and
//! what keeps rows. Each is a trait with a written meaning and, but for the clock, a count of faults.
//!
//! The contract for the layer above: a call answers `Failed` only where its object's count rose in that call, and what
//! an object tells of itself changes by exactly what the call took, gave or was asked, until it ceases to tell.
//!
//! In the order of reading: what an object tells (`specs/Told.antt`), the counts (`specs/Cause.antt`), what changes make
//! of rows (`specs/Rows.antt`), the traits. `proofs/Telling.antt` has the laws of two calls one after the other. The forms
//! in memory and the adapters of std's streams and clock are in `wm_outside`, a keeper over SQLite in `wm_sqlkeep`, what
//! starts the system's programs in `wm_children`.
#![tactic(auto)]

mod clock;
mod fault;
mod keeper;
mod order;
mod row;
mod sink;
mod source;
mod spawner;
mod store;

pub use clock::Clock;
pub use fault::{Failed, KeepFault, StartFault};
pub use keeper::Keeper;
pub use order::are_in_order;
pub use row::{Row, RowChange};
pub use sink::Sink;
pub use source::Source;
pub use spawner::{Spawner, Told};
pub use store::Store;
