// A gate that holds one worker until the other's first answer was written.
use std::sync::atomic::{AtomicU64, Ordering};
use wm_web::Gate;

// How often the held worker looks before it goes on by itself.
const LOOKS: u64 = 1_000_000_000;

/// Holds the worker that is about to call first, until another has written an answer.
#[derive(Drop)]
pub struct HoldingGate {
    // 1 once a worker is held
    held: AtomicU64,
    // the held worker
    first: AtomicU64,
    // 1 once another has written an answer
    answered: AtomicU64,
    // 1 where the held worker went on by itself
    tired: AtomicU64,
}

impl HoldingGate {
    pub fn new() -> HoldingGate {
        HoldingGate {
            held: AtomicU64::new(0),
            first: AtomicU64::new(0),
            answered: AtomicU64::new(0),
            tired: AtomicU64::new(0),
        }
    }

    /// How the hold ended.
    pub fn told(&self) -> &'static str {
        if self.tired.load(Ordering::SeqCst) != 0 {
            "by itself"
        } else if self.answered.load(Ordering::SeqCst) != 0 {
            "by the other's answer"
        } else {
            "not at all"
        }
    }
}

impl Gate for HoldingGate {
    fn before(&self, worker: u32) {
        if self.held.fetch_add(1, Ordering::SeqCst) != 0 {
            return;
        }
        self.first.store(u64::from(worker), Ordering::SeqCst);
        for _ in 0..LOOKS {
            if self.answered.load(Ordering::SeqCst) != 0 {
                return;
            }
        }
        self.tired.store(1, Ordering::SeqCst);
    }

    fn after(&self, worker: u32) {
        if self.first.load(Ordering::SeqCst) != u64::from(worker) {
            self.answered.store(1, Ordering::SeqCst);
        }
    }
}
