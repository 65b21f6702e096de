// What is told of a worker's calls.

/// What is told of each call that a worker makes of the floor. Nothing is said of how long a call of it takes.
pub trait Gate {
    /// The worker is about to call the floor.
    fn before(&self, worker: u32);

    /// The answer to the request that called the floor was written.
    fn after(&self, worker: u32);
}

/// A gate that does nothing.
#[derive(Clone, Copy, Debug)]
pub struct FreeGate;

impl Gate for FreeGate {
    fn before(&self, _worker: u32) {}

    fn after(&self, _worker: u32) {}
}
