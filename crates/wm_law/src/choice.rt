// A job that may start, and what orders such jobs.
use wm_base::{Name, Priority, QName, Serial};

/// What orders the jobs that may start: the simple name of the subsystem, and there the entry's
/// sequence number, the job's priority and its place.
#[derive(Clone, Copy, PartialEq, Eq, PartialOrd, Ord)]
pub struct Rank {
    pub sbs: Name,
    pub seq: u32,
    pub pty: Priority,
    pub place: u64,
}

/// A job that is ready and allowed.
#[derive(Clone, Copy)]
pub struct Candidate {
    pub rank: Rank,
    pub sbs: QName,
    pub jobq: QName,
    pub serial: Serial,
}
