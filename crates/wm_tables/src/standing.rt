// What is stored of how a job stands.
use wm_base::{Moment, Priority};

/// What is stored of how a job stands, beside its phase and its queue.
#[derive(PartialEq, Drop)]
pub(crate) struct StoredStanding {
    pub(crate) held: bool,
    pub(crate) due: Moment,
    pub(crate) pty: Priority,
    pub(crate) place: u64,
}
