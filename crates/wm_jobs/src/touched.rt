// What a table keeps of the changes since its mark.
use wm_base::{How, Moment, Priority, QName, Serial};
use wm_law::{Phase, Wish};

/// What the calls of a table change of a job.
#[derive(Clone, Copy)]
pub struct Standing {
    pub phase: Phase,
    pub how: How,
    pub wish: Wish,
    pub held: bool,
    pub due: Moment,
    pub jobq: Option<QName>,
    pub pty: Priority,
    pub place: u64,
    pub uses: u32,
    pub evoke: bool,
}

/// A job that was touched, by its serial, and how it stood before.
#[derive(Clone, Copy)]
pub struct Touched {
    pub serial: Serial,
    pub was: Standing,
}

/// Where a job stands in the list, and how.
#[derive(Clone, Copy)]
pub(crate) struct Found {
    pub(crate) at: usize,
    pub(crate) was: Standing,
}

/// What a table was at its mark, beside what was touched since: how many jobs it had, its clock, and the serial and the place
/// that the next job had.
#[derive(Clone, Copy)]
pub(crate) struct Mark {
    pub(crate) jobs: usize,
    pub(crate) clock: Moment,
    pub(crate) next_serial: u64,
    pub(crate) next_place: u64,
}
