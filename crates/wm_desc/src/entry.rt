// The entries of a subsystem description.
use crate::Keyed;
use wm_base::{Limit, Name, QName, Text};

/// A job queue that feeds a subsystem (ADDJOBQE): its sequence number, how many of its jobs may be active, and how
/// many with each priority.
#[derive(Clone, Copy)]
pub struct QueueEntry {
    pub seq: u32,
    pub jobq: QName,
    pub maxact: Limit,
    /// For the priorities 1 to 9, in order.
    pub maxpty: [Limit; 9],
}

/// What a routing entry compares with the routing data.
#[derive(Clone, Debug, Drop)]
pub enum Cmp {
    /// *ANY: all routing data match.
    Any,
    /// The routing data have the value from the start position on, counted from 1.
    Val { value: Text, start: u32 },
}

impl Cmp {
    ghost use Rattle.std.specs.Prelude.{◌≡◌};
    ghost use Rattle.wm_desc.specs.Refusals.{is_any};

    /// Whether it is *ANY.
    pub fn is_any(&self) -> bool
        ensures { result ≡ is_any self.now }
    {
        matches!(self, Cmp::Any)
    }
}

/// A routing entry (ADDRTGE): which program and class a job with matching routing data gets.
#[derive(Clone, Drop)]
pub struct RouteEntry {
    pub seq: u32,
    pub cmp: Cmp,
    pub pgm: QName,
    pub cls: QName,
    pub maxact: Limit,
    /// Kept and without effect.
    pub poolid: u32,
}

/// A job that starts with its subsystem (ADDAJE).
#[derive(Clone, Copy)]
pub struct AutoEntry {
    pub job: Name,
    pub jobd: QName,
}

/// Jobs of a program that start before their requests come (ADDPJE).
#[derive(Clone, Copy)]
pub struct PreEntry {
    pub pgm: QName,
    pub strjobs: bool,
    pub inljobs: u32,
    pub threshold: u32,
    pub adljobs: u32,
    pub maxjobs: Limit,
    pub maxuse: Limit,
    pub wait: bool,
    pub cls: QName,
    /// Kept and without effect.
    pub poolid: u32,
}

impl Keyed for QueueEntry {
    type By = u32;

    ghost key = { λ e. e.seq };

    fn key(&self) -> &u32 {
        &self.seq
    }
}

impl Keyed for RouteEntry {
    type By = u32;

    ghost key = { λ e. e.seq };

    fn key(&self) -> &u32 {
        &self.seq
    }
}

impl Keyed for AutoEntry {
    type By = Name;

    ghost key = { λ e. e.job };

    fn key(&self) -> &Name {
        &self.job
    }
}

impl Keyed for PreEntry {
    type By = QName;

    ghost key = { λ e. e.pgm };

    fn key(&self) -> &QName {
        &self.pgm
    }
}
