// The listener in memory and its desks.
mod desk;
mod listener;
mod queue;

pub use desk::{MemDesk, Returned};
pub use listener::MemListener;
