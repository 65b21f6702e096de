// Where rows stand.
use wm_base::Text;

/// Where a row stands: its table, and its key there.
#[derive(Drop)]
pub struct Place {
    pub tab: u8,
    pub key: Text,
}

pub const CLASSES: u8 = 1;

pub const PROGRAMS: u8 = 2;

pub const QUEUES: u8 = 3;

pub const JOBDS: u8 = 4;

pub const SBSDS: u8 = 5;

pub const QUEUE_ENTRIES: u8 = 6;

pub const ROUTE_ENTRIES: u8 = 7;

pub const AUTO_ENTRIES: u8 = 8;

pub const PRE_ENTRIES: u8 = 9;

pub const HELD: u8 = 10;

pub const COUNTERS: u8 = 12;
