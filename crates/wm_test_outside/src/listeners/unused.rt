// Connections of which nothing was written and no call has failed.
ghost use Rattle.std.specs.Prelude.{◌≡◌, All};
ghost use Rattle.wm_listener.specs.Memory.{IsUnused};

use anyhow::Result;
use std::alloc::Global;
use wm_cases::bytes_of;
use wm_listener::MemListener;
use wm_outside::{MemSink, MemSource};

/// Connections that were not used yet.
#[derive(Drop)]
pub struct Unused {
    connections: Vec<(MemSource, MemSink)>,
    ghost unused: { All IsUnused connections.items },
}

impl Unused {
    pub fn new(alloc: Global) -> Unused {
        Unused {
            connections: Vec::new(alloc),
        }
    }

    /// One more, whose peer sends these bytes.
    pub fn add(&mut self, alloc: Global, bytes: Vec<u8>) -> Result<()> {
        let input = MemSource::new(bytes, Vec::new(alloc));
        let output = MemSink::new(alloc, Vec::new(alloc));
        self.connections.push((input, output))?;
        Ok(())
    }

    /// A listener with these, whose looks of these numbers fail.
    pub fn listener(self, fail: Vec<u32>) -> MemListener {
        MemListener::new(self.connections, fail)
    }
}

/// The connections of `ab | cd`, one for each text; of `-` none.
pub fn connections_of(alloc: Global, texts: &str) -> Result<Unused> {
    let mut unused = Unused::new(alloc);
    if texts == "-" {
        return Ok(unused);
    }
    for text in texts.split(" | ") {
        let bytes = bytes_of(alloc, text)?;
        unused.add(alloc, bytes)?;
    }
    Ok(unused)
}
