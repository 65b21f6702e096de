// A gate that counts.
use std::cell::Cell;
use wm_web::Gate;

/// How often a gate's two calls came, and of how many workers.
#[derive(Drop)]
pub struct CountingGate {
    before: Cell<u32>,
    after: Cell<u32>,
}

impl CountingGate {
    pub fn new() -> CountingGate {
        CountingGate {
            before: Cell::new(0),
            after: Cell::new(0),
        }
    }

    /// How often `before` came.
    pub fn before_count(&self) -> u32 {
        self.before.get()
    }

    /// How often `after` came.
    pub fn after_count(&self) -> u32 {
        self.after.get()
    }
}

impl Gate for CountingGate {
    fn before(&self, _worker: u32) {
        self.before.set(self.before.get().saturating_add(1));
    }

    fn after(&self, _worker: u32) {
        self.after.set(self.after.get().saturating_add(1));
    }
}
