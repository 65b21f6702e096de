//! The objects (classes, job queues, programs, job descriptions, subsystem descriptions) and what may be added to them.
//!
//! The contract for the layer above: each `add_` and `remove_` call of `Objects` answers the first refusal of its
//! command that applies, exactly where one does, and else leaves the objects with, or without, that one thing.
//! The definitions are in `specs/`: `Sorted` and `Table` have lists by key, `Ranges` the values that are taken,
//! `Refusals` the tests of each command in their order, and `Objects` what the objects are afterwards.
#![tactic(auto)]

mod description;
mod entries;
mod entry;
mod exact;
mod fault;
mod limits;
mod objects;
mod opening;
mod ranges;
mod refuse;
mod sorted;

pub use description::{
    AutoEntries, Classes, Jobd, Jobds, Jobq, Jobqs, PreEntries, Program, Programs, QueueEntries,
    RouteEntries, Sbsd, Sbsds, Table,
};
pub use entry::{AutoEntry, Cmp, PreEntry, QueueEntry, RouteEntry};
pub use exact::ExactClone;
pub use fault::DescFault;
pub use limits::{MAX_AUTOS, MAX_OBJECTS, MAX_PRES, MAX_QUEUES, MAX_ROUTES};
pub use objects::Objects;
pub use opening::{echo, qbatch, qdftjobd};
pub use ranges::path_in_range;
pub use refuse::is_qcmd;
pub use sorted::{Keyed, SortedList};
