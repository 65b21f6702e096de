// Whether a listener was closed, as it and its connections see it.
use std::alloc::{AllocError, Global};
use std::sync::atomic::{AtomicU64, Ordering};
use std::sync::{Arc, Wait};
use std::time::Duration;

/// Whether a listener was closed. It stays so.
#[derive(Drop)]
pub struct Closing {
    // 1 once it was closed
    closed: Arc<AtomicU64>,
}

impl Closing {
    /// It isn't closed.
    pub fn new(alloc: Global) -> Result<Closing, AllocError> {
        let closed = Arc::new(alloc, AtomicU64::new(0))?;
        Ok(Closing { closed })
    }

    /// The same, for one who looks.
    pub fn share(&self) -> Result<Closing, AllocError> {
        let closed = Arc::try_clone(&self.closed)?;
        Ok(Closing { closed })
    }

    pub fn is_closed(&self) -> bool {
        self.closed.load(Ordering::SeqCst) != 0
    }

    /// From now on it is closed. Who pauses goes on.
    pub fn close(&self) {
        self.closed.store(1, Ordering::SeqCst);
        self.closed.wake_all();
    }

    /// Pauses for so long, or until it is closed.
    pub fn pause<R: Wait>(&self, rt: &R, time: Duration) {
        self.closed.park_timeout(rt, 0, time);
    }
}
