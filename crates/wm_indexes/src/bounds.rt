// What bounds the jobs of a prestart entry.
use wm_base::Limit;

/// What the number of jobs that are made for a prestart entry rests on, beside the entry.
#[derive(Clone, Copy)]
pub struct Supply {
    /// Whether the entry makes no jobs.
    pub stopped: bool,
    /// How many of its jobs are available.
    pub available: u32,
    /// How many of its jobs are active.
    pub count: u32,
    /// MAXJOBS of its subsystem.
    pub sbs_maxjobs: Limit,
    /// How many jobs are active in its subsystem.
    pub sbs_count: u32,
    /// How many jobs can still be made.
    pub numbers_left: u32,
}
