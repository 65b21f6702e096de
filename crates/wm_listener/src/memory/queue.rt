// The connections that a listener in memory still has.
ghost use Rattle.std.specs.Prelude.{◌≡◌, All, IfSome};
ghost use Rattle.wm_listener.specs.Memory.{IsUnused};

use std::collections::VecDeque;
use wm_outside::{MemSink, MemSource};
use wm_traits::Failed;

/// The connections that are left, how many looks there were, and the numbers, from 1, of those that fail. The number of looks
/// stays at the greatest u64 once it is there.
#[derive(Drop)]
pub struct Queue {
    connections: VecDeque<(MemSource, MemSink)>,
    looks: u64,
    failing: Vec<u32>,
    ghost unused: { All IsUnused connections.items },
}

impl Queue {
    pub fn new(connections: Vec<(MemSource, MemSink)>, failing: Vec<u32>) -> Queue
        requires { All IsUnused connections.items }
    {
        Queue {
            connections: VecDeque::from(connections),
            looks: 0,
            failing,
        }
    }

    /// Counts a look, and answers `Failed` where the list names its number.
    pub fn count(&mut self) -> Result<(), Failed> {
        self.looks = self.looks.saturating_add(1);
        let number = self.looks;
        if self.failing.iter().any(|&look| u64::from(look) == number) {
            return Err(Failed);
        }
        Ok(())
    }

    /// Whether no connection is left.
    pub fn is_empty(&self) -> bool {
        self.connections.is_empty()
    }

    /// The first connection that is left.
    pub fn take(&mut self) -> Option<(MemSource, MemSink)>
        ensures { IfSome result IsUnused }
    {
        self.connections.pop_front()
    }
}
