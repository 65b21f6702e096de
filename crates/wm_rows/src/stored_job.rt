// What is stored of a job.
use wm_base::{EndCause, JobNumber, Moment, Name, Priority, QName, Text};
use wm_law::JobKind;

/// The phase of a stored job. Which active phase a job has isn't stored.
#[derive(Clone, Copy, Debug, PartialEq)]
pub enum StoredPhase {
    Waiting,
    Active,
    Ended(EndCause),
}

/// What is stored of a job. Its place in a subsystem, its wish to end and its uses aren't: no active job outlives a stop.
#[derive(Drop)]
pub struct StoredJob {
    pub serial: u64,
    pub number: JobNumber,
    pub user: Name,
    pub name: Name,
    pub kind: JobKind,
    pub jobq: Option<QName>,
    pub pty: Priority,
    pub place: u64,
    pub rtgdta: Text,
    pub rqsdta: Option<Text>,
    pub held: bool,
    pub due: Moment,
    pub phase: StoredPhase,
}
