//! Where connections come from: what gives them one by one, to any number of workers in any threads, and takes them back.
//!
//! The contract for the layer above: a worker's desk has at most one connection in hand. `next` gives one of which nothing was
//! written and neither side has counted a fault, or says that none can come any more (Dry), or that the listener was closed
//! (Closed), or that its look failed, which its desk has counted. The desk counts each Dry. `done` takes the connection back,
//! and the desk tells, of all that it has had, what there was to read, what is left of it, what was written, and the counts of
//! both sides (`specs/Had.antt`).
//!
//! No clause says when `next` answers Dry or Closed, since what a listener has is shared by all desks: tests show it of the form in
//! memory (`memory/`), which gives the connections of a list, then Dry, and behind a `close` Closed. Over the system (`system/`)
//! `next` never answers Dry, and nothing is told: it is the trusted edge. It rests on `accept`, which gives each connection
//! once, on `shutdown` of the listening socket, which ends every `accept` that waits, and on the timeouts of a socket, by which
//! a connection looks each second whether the listener was closed, and then ends.
#![tactic(auto)]

mod desk;
mod listener;
mod memory;
mod next;
mod system;

pub use desk::Desk;
pub use listener::Listener;
pub use memory::{MemDesk, MemListener, Returned};
pub use next::Next;
pub use system::{Incoming, Outgoing, SysDesk, SysListener};
