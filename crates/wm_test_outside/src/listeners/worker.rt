// A desk with the connection that is in hand.
ghost use Rattle.std.specs.Prelude.{◌≡◌, is_some};
ghost use Rattle.wm_listener.specs.Memory.{desk_hand};

use anyhow::Result;
use std::alloc::Global;
use std::fmt::Write;
use std::sync::Wait;
use wm_cases::{bytes_of, visible};
use wm_listener::{Listener, MemDesk, MemListener, Next};
use wm_outside::{MemSink, MemSource};
use wm_traits::{Failed, Sink, Source};

/// A worker at a listener in memory.
#[derive(Drop)]
pub struct Worker {
    desk: MemDesk,
    hand: Option<(MemSource, MemSink)>,
    ghost tied: { is_some (desk_hand desk) ≡ is_some hand },
}

impl Worker {
    pub fn new(alloc: Global) -> Worker {
        Worker {
            desk: MemDesk::new(alloc),
            hand: None,
        }
    }

    /// Looks for a connection, where none is in hand.
    pub fn next<R: Wait>(&mut self, rt: &R, listener: &MemListener) -> &'static str {
        if self.hand.is_some() {
            return "BUSY\n";
        }
        match listener.next(rt, &mut self.desk) {
            Ok(Next::Here(input, output)) => {
                self.hand = Some((input, output));
                "HERE\n"
            }
            Ok(Next::Dry) => "DRY\n",
            Ok(Next::Closed) => "CLOSED\n",
            Err(Failed) => "FAILED\n",
        }
    }

    /// Gives the connection in hand back.
    pub fn done(&mut self, listener: &MemListener) -> &'static str {
        match self.hand.take() {
            None => "NOTHING IN HAND\n",
            Some((input, output)) => {
                listener.done(&mut self.desk, input, output);
                ""
            }
        }
    }

    /// Reads once from the connection in hand.
    pub fn read(&mut self, alloc: Global, most: &str, answer: &mut String) -> Result<()> {
        let mut buf = vec![in alloc; 0u8; usize::from(most.parse::<u16>()?)]?;
        let read = match &mut self.hand {
            None => 0,
            Some((input, _)) => input.read(&mut buf).unwrap_or(0),
        };
        writeln!(answer, "{}", visible(alloc, &buf[..read.min(buf.len())])?)?;
        Ok(())
    }

    /// Writes once to the connection in hand.
    pub fn write(&mut self, alloc: Global, text: &str) -> Result<()> {
        let bytes = bytes_of(alloc, text)?;
        match &mut self.hand {
            None => {}
            Some((_, output)) => {
                let _ = output.write(&bytes);
            }
        }
        Ok(())
    }

    /// What was written of the connections that were given back, a line each.
    pub fn had(&self, alloc: Global, answer: &mut String) -> Result<()> {
        for returned in self.desk.had() {
            writeln!(answer, "{}", visible(alloc, returned.output.bytes())?)?;
        }
        Ok(())
    }
}
