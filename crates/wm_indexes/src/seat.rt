// What idle prestart jobs are sorted by.
use crate::PrestartEntry;
use wm_base::Serial;

/// An idle prestart job: by entry, then number, then serial.
#[derive(Clone, Copy, PartialEq, Eq, PartialOrd, Ord)]
pub(crate) struct Seat {
    pub(crate) entry: PrestartEntry,
    pub(crate) number: u32,
    pub(crate) serial: Serial,
}
