// What moments are sorted by.
use wm_base::{Moment, Serial};

/// When the moment of a serial comes: by moment, then serial.
#[derive(Clone, Copy, PartialEq, Eq, PartialOrd, Ord)]
pub(crate) struct Turn {
    pub(crate) moment: Moment,
    pub(crate) serial: Serial,
}
