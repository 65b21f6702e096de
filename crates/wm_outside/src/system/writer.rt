// A writer of std as a sink.
ghost use Rattle.std.specs.Prelude.{◌≡◌, ◌≤◌, ◌<◌, None, length, take, IfSome, IfNone, IfOk, OnErr};
ghost use Rattle.std.specs.Io.KnownBytes.{Appends, Keeps};
ghost use Rattle.wm_traits.specs.Cause.{HasCause};

use std::io::{ErrorKind, Write};
use wm_traits::{Failed, Sink};

// How often a write that was interrupted is tried.
const TRIES: u32 = 1000;

// Writes, and tries again where it is interrupted. A writer that takes nothing of some bytes has failed.
fn try_write<W: Write>(writer: &mut W, buf: &[u8]) -> Option<usize>
    ensures within { IfSome result (λ n. n ≤ length buf.now) }
    ensures some { IfSome result (λ n. 0 < length buf.now → 0 < n) }
    ensures bytes { IfSome result (λ n. Appends (W.contents writer.old) (W.contents writer.new) (take n buf.now)) }
    ensures none { IfNone result (Keeps (W.contents writer.old) (W.contents writer.new)) }
{
    for _ in 0..TRIES {
        match writer.write(buf) {
            Ok(0) if !buf.is_empty() => return None,
            Ok(n) => return Some(n),
            Err(e) if e.kind() == ErrorKind::Interrupted => {}
            Err(_) => return None,
        }
    }
    None
}

/// A sink over a writer of std, which it doesn't flush. A writer that takes nothing of some bytes is a fault.
#[derive(Drop)]
pub struct WriteSink<W: Write> {
    writer: W,
    faults: u64,
}

impl<W: Write> WriteSink<W> {
    ghost use Rattle.wm_outside.specs.System.{writer_of, writer_faults};

    pub fn new(writer: W) -> WriteSink<W>
        ensures writer { writer_of result ≡ writer }
        ensures faults { writer_faults result ≡ 0 }
    {
        WriteSink { writer, faults: 0 }
    }
}

impl<W: Write> Sink for WriteSink<W> {
    ghost use Rattle.wm_outside.specs.System.{writer_of, writer_faults};

    ghost faults = { writer_faults };

    ghost written = { λ _. None };

    // What std's writer tells is passed on.
    fn write(&mut self, buf: &[u8]) -> Result<usize, Failed>
        ensures within { IfOk result (λ n. n ≤ length buf.now) }
        ensures some { IfOk result (λ n. 0 < length buf.now → 0 < n) }
        ensures bytes { IfOk result (λ n. Appends (W.contents (writer_of self.old)) (W.contents (writer_of self.new)) (take n buf.now)) }
        ensures err { OnErr result (Keeps (W.contents (writer_of self.old)) (W.contents (writer_of self.new))) }
        ensures cause { HasCause (writer_faults self.old) (writer_faults self.new) result }
    {
        match try_write(&mut self.writer, buf) {
            Some(n) => Ok(n),
            None => {
                self.faults = self.faults.saturating_add(1);
                Err(Failed)
            }
        }
    }
}
