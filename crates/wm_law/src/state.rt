// The state of the machine.
use crate::{Job, ListOf};
use wm_base::{Moment, Name, QName};
use wm_desc::{Objects, SortedList};

/// Whether a started subsystem takes jobs, is to end at some moment or by itself, or ends now.
#[derive(Clone, Copy)]
pub enum SbsPhase {
    Active,
    Ending(Option<Moment>),
    Now,
}

/// A started subsystem, by its description's name.
#[derive(Clone, Copy)]
pub struct Sbs {
    pub sbsd: QName,
    pub phase: SbsPhase,
}

/// A prestart entry that makes no jobs.
#[derive(Clone, Copy)]
pub struct Stop {
    pub sbs: QName,
    pub pgm: QName,
}

/// A program start request that waits for a prestart job.
#[derive(Clone, Copy)]
pub struct Evoke {
    pub user: Name,
    pub sbs: QName,
    pub pgm: QName,
}

/// Whether the system takes work.
#[derive(Clone, Copy)]
pub enum Power {
    On,
    Down,
    DownNow,
}

/// Jobs, in the order of their serials.
pub type Jobs = ListOf<Job>;

/// Started subsystems, in the order of their start.
pub type SbsList = ListOf<Sbs>;

/// Names of queues, in their order.
pub type QNames = SortedList<QName>;

/// Prestart entries that make no jobs.
pub type Stops = ListOf<Stop>;

/// Requests that wait, in the order of their arrival.
pub type Evokes = ListOf<Evoke>;

/// The state of the machine. `jobs` stands in the order of serials, `started` in the order of start,
/// `held` has the held queues.
#[derive(Drop)]
pub struct State {
    pub objects: Objects,
    pub jobs: Jobs,
    pub started: SbsList,
    pub held: QNames,
    pub stopped: Stops,
    pub evokes: Evokes,
    pub next_number: u32,
    pub next_serial: u64,
    pub next_place: u64,
    pub clock: Moment,
    pub offset_min: i32,
    pub power: Power,
}
