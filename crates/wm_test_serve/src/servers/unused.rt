// Connections of which nothing was written.
ghost use Rattle.std.specs.Prelude.{All};
ghost use Rattle.wm_listener.specs.Memory.{IsUnused};

use anyhow::Result;
use std::alloc::Global;
use wm_listener::MemListener;
use wm_outside::{MemSink, MemSource};

/// Connections of which nothing was written, and no call of which has failed.
#[derive(Drop)]
pub struct Unused {
    connections: Vec<(MemSource, MemSink)>,
    ghost unused: { All IsUnused connections.items },
}

impl Unused {
    pub fn new(alloc: Global) -> Unused {
        Unused {
            connections: Vec::new(alloc),
        }
    }

    /// One more, whose peer sends these bytes.
    pub fn add(&mut self, alloc: Global, bytes: &[u8]) -> Result<()> {
        let input = MemSource::new(Vec::from_slice(alloc, bytes)?, Vec::new(alloc));
        let output = MemSink::new(alloc, Vec::new(alloc));
        self.connections.push((input, output))?;
        Ok(())
    }

    /// A listener with these.
    pub fn listener(self, alloc: Global) -> MemListener {
        MemListener::new(self.connections, Vec::new(alloc))
    }
}
