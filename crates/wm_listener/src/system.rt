// A listener of the system, its desks and its connections.
mod closing;
mod desk;
mod halves;
mod listener;

pub use desk::SysDesk;
pub use halves::{Incoming, Outgoing};
pub use listener::SysListener;
