// A listener in memory.
ghost use Rattle.std.specs.Prelude.{◌≡◌, All, Some, None, IsSome, if◌then◌else◌};
ghost use Rattle.wm_traits.specs.Told.{Stays};
ghost use Rattle.wm_traits.specs.Cause.{HasCause, raised};

use super::desk::MemDesk;
use super::queue::Queue;
use crate::{Listener, Next};
use std::sync::atomic::{AtomicBool, Ordering};
use std::sync::{Mutex, Wait};
use wm_outside::{MemSink, MemSource};
use wm_traits::Failed;

/// A listener that gives the connections of a list, in order, to whoever asks. Where none of them is left it answers Dry, and
/// else behind a `close` Closed. Its looks of these numbers, from 1, over all desks, fail.
#[derive(Drop)]
pub struct MemListener {
    queue: Mutex<Queue>,
    closed: AtomicBool,
}

impl MemListener {
    ghost use Rattle.wm_listener.specs.Memory.{IsUnused, IsUnusedNext};

    /// Nothing was written of the connections, and no call of theirs has failed. It takes no memory.
    pub fn new(connections: Vec<(MemSource, MemSink)>, fail: Vec<u32>) -> MemListener
        requires unused { All IsUnused connections.items }
    {
        MemListener {
            queue: Mutex::new(Queue::new(connections, fail)),
            closed: AtomicBool::new(false),
        }
    }

    // What the next look gives.
    fn look<R: Wait>(&self, rt: &R) -> Result<Next<MemSource, MemSink>, Failed>
        ensures { IsUnusedNext result }
    {
        let mut queue = self.queue.lock(rt);
        queue.count()?;
        if !queue.is_empty() && self.closed.load(Ordering::SeqCst) {
            return Ok(Next::Closed);
        }
        match queue.take() {
            None => Ok(Next::Dry),
            Some((input, output)) => Ok(Next::Here(input, output)),
        }
    }
}

impl Listener for MemListener {
    type I = MemSource;

    type O = MemSink;

    type D = MemDesk;

    fn next<R: Wait>(
        &self,
        rt: &R,
        desk: &mut MemDesk,
    ) -> Result<Next<MemSource, MemSink>, Failed> {
        let next = self.look(rt);
        match &next {
            Ok(Next::Here(input, _)) => desk.take(input),
            Ok(Next::Dry) => desk.dries = desk.dries.saturating_add(1),
            Ok(Next::Closed) => {}
            Err(_) => desk.faults = desk.faults.saturating_add(1),
        }
        next
    }

    fn done(&self, desk: &mut MemDesk, input: MemSource, output: MemSink) {
        desk.put(input, output);
    }

    fn close(&self) {
        self.closed.store(true, Ordering::SeqCst);
    }
}
