// A job that waits.
use wm_base::{Moment, Priority, QName, Serial};

/// A job that waits. It may start from its moment `due` on, where it isn't held.
#[derive(Clone, Copy)]
pub struct Waiter {
    pub serial: Serial,
    pub place: u64,
    pub due: Moment,
    pub jobq: QName,
    pub pty: Priority,
    pub held: bool,
}
