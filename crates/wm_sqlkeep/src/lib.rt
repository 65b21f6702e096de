//! Rows kept in SQLite: a store whose keepers have a file each, or memory for `:memory:`, and the SQL of its one table,
//! `wmrow`, whole (`table`).
//!
//! The contract for the layer above is that of `Store` and `Keeper` of `wm_traits`: a call answers `Failed` only where its
//! count rose, a keeper comes with a count of 0, and a store passes on that a keeper has failed. Beyond it a keeper's `load`
//! gives all rows of SQLite's answer, and its `apply` has made and committed each change, in their order (`specs/Done.antt`);
//! both answer `Failed` only where SQLite erred or a row has a column that makes none (`specs/Causes.antt`), and where an
//! `apply` fails, the database is as it was: always in memory, and on a file as far as `sqlite` says so, while the disk
//! returns what was written. They tell no rows, so nothing is promised of what a file holds; cases show it
//! (`wm_test_outside`, `.ci/store`).
//!
//! A keeper has its file alone from its opening to its end. An `apply` is one transaction, which is on the disk where it is
//! Ok. Where the disk fails in the middle of it, the keeper fails from then on, and the file has all changes of that call or
//! none when it is opened again. Nothing that was in memory is left after the keeper's end. A keeper may be sent to another
//! thread, which is shown part by part (`proofs/Crosses.antt`).
//!
//! In the order of reading: the faults (`faults`), the SQL (`table`), the keeper over any connection (`keeper`), a look before
//! an opening (`look`), a store's keepers, over a file or memory (`opened`), and the store (`store`). No other crate of the
//! product names a connection.
#![tactic(auto)]

mod faults;
mod keeper;
mod look;
mod opened;
mod store;
mod table;

pub use keeper::SqlKeeper;
pub use opened::OpenedKeeper;
pub use store::SqlStore;
