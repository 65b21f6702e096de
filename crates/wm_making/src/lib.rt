//! What commands make of the objects, and what is kept of the objects so that it can be taken back.
//!
//! The contract for the layer above: `change_objects` answers what the definition of a command that makes an object, or
//! adds or removes an entry, gives, and leaves the objects that it gives; out of memory they are as they were. `saved_of` is
//! what a call may change of the objects and the held queues, and `put_back` puts that back without memory.
//! `opening_commands` are the commands of the definition of that name, whose objects an empty store opens with.
//!
//! Format: what is kept is nothing, or the name of the object that the call would make, or the one description that it would
//! change, as it is, or the held queues (`Saved`). What always holds: put back into the objects and the held queues that the
//! call leaves, it gives those that it found. Algorithm: a made object is taken out, and a description or the held queues are
//! swapped for the copy (`back.rt`); neither takes memory.
//!
//! The definitions are in `specs/`: `Making` has what a command makes of the objects, by those of `wm_law`; `Saved` what is
//! kept of the objects and the held queues, and what they are once it is put back.
#![tactic(auto)]

mod back;
mod changing;
mod entries;
mod kept;
mod making;
mod opening;
mod replies;
mod saved;
mod values;

pub use back::put_back;
pub use changing::change_objects;
pub use kept::saved_of;
pub use opening::opening_commands;
pub use saved::Saved;
