// What the threads of a server tell each other.
use std::sync::atomic::{AtomicU64, Ordering};

/// How many workers are at work still, and whether a thread has stopped by a fault.
#[derive(Drop)]
pub struct Board {
    working: AtomicU64,
    stopped: AtomicU64,
}

impl Board {
    /// A board for so many workers.
    pub fn new(workers: usize) -> Board {
        Board {
            working: AtomicU64::new(workers as u64),
            stopped: AtomicU64::new(0),
        }
    }

    /// A worker has stopped.
    pub fn leave(&self) {
        self.working.fetch_sub(1, Ordering::SeqCst);
    }

    /// A thread stops by a fault.
    pub fn stop(&self) {
        self.stopped.store(1, Ordering::SeqCst);
    }

    /// Whether a thread has stopped by a fault.
    pub fn is_stopped(&self) -> bool {
        self.stopped.load(Ordering::SeqCst) != 0
    }

    /// Whether all workers have stopped.
    pub fn is_left(&self) -> bool {
        self.working.load(Ordering::SeqCst) == 0
    }
}
