// The numbers that come next.

/// The numbers that the next job has: its job number, its place and its serial.
#[derive(Clone, Copy)]
pub struct Counts {
    pub next_number: u32,
    pub next_place: u64,
    pub next_serial: u64,
}
