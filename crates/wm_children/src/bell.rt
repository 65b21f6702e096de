// The bell of a spawner, and what crosses the channel over which its ends come.
use crate::finished::Finished;
use crossbeam_channel::Sender;
use std::alloc::{AllocError, Global};
use std::sync::atomic::{AtomicBool, Ordering};
use std::sync::{Arc, Wait};
use wm_base::NoMemory;

/// That a bell was rung. Only a silent bell makes one, and it is silent again once that is heard: so there is one at most.
#[derive(Drop)]
pub struct Ring {
    rung: (),
}

/// What crosses the channel of the ends.
#[derive(Drop)]
pub enum Message {
    End(Finished),
    Ring(Ring),
}

/// Ends a spawner's wait until a moment, from any thread: the one that is going on, else the next one. However often it is
/// rung until a wait hears it, it ends one wait.
#[derive(Drop)]
pub struct Bell {
    // Whether it was rung, and no wait has heard it since.
    is_rung: Arc<AtomicBool>,
    to: Sender<Message>,
}

impl Bell {
    /// A silent bell, whose ring is sent there.
    pub(crate) fn new(alloc: Global, to: Sender<Message>) -> Result<Bell, NoMemory> {
        let is_rung = Arc::new(alloc, AtomicBool::new(false))?;
        Ok(Bell { is_rung, to })
    }

    /// Rings. It doesn't wait for the spawner, and takes no memory.
    pub fn ring<R: Wait>(&self, rt: &R) {
        if !self.is_rung.swap(true, Ordering::SeqCst) {
            // It fails only where the spawner is gone, and then nobody waits.
            let _is_sent = self.to.send(rt, Message::Ring(Ring { rung: () })).is_ok();
        }
    }

    /// The ring is heard, and what was done before it is seen from here on. The next one is sent again.
    pub(crate) fn hear(&self, _ring: Ring) {
        self.is_rung.store(false, Ordering::SeqCst);
    }
}

impl Clone for Bell {
    fn clone(&self) -> Result<Bell, AllocError> {
        let is_rung = Arc::try_clone(&self.is_rung)?;
        let to = self.to.clone()?;
        Ok(Bell { is_rung, to })
    }
}
