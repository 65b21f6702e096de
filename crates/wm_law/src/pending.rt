// What is told of a state.
use crate::Power;
use wm_base::Moment;

/// What waits for a monitor.
#[derive(Clone, Copy)]
pub struct Pending {
    /// How many orders Hand would give the monitor, one after another.
    pub orders: usize,
    /// The least moment above the clock at which a Waiting job, a wish or an ending subsystem is due.
    pub next: Option<Moment>,
    pub active: usize,
    /// How many active jobs aren't prestart jobs.
    pub busy: usize,
    pub power: Power,
}
