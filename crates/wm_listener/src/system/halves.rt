// The two halves of a connection of the system. Neither waits for a silent peer for ever, and once the listener is closed
// neither waits for long.
use super::closing::Closing;
use std::alloc::Global;
use std::io;
use std::io::{Error, ErrorKind, Read, Write};
use std::net::TcpStream;
use std::sync::Arc;
use std::time::Duration;

/// How long a peer may be silent, and how long it may take no byte, before its connection ends by a fault: in seconds.
pub const SILENCE: u64 = 10;

// How often a write may end short of its bytes, or with none of them, once the listener was closed. Each takes a second at the most.
const LATE: u64 = 5;

// How long a half waits before it looks again whether the listener was closed: in seconds.
const LOOK: u64 = 1;

/// Where a worker reads. Once the listener is closed its end is reached, whatever the peer sends.
#[derive(Drop)]
pub struct Incoming {
    stream: Arc<TcpStream>,
    closing: Closing,
}

/// Where a worker writes. Once the listener is closed, a peer that takes its answer slowly is soon let go.
#[derive(Drop)]
pub struct Outgoing {
    stream: Arc<TcpStream>,
    closing: Closing,
    // How many writes have ended so since the listener was closed.
    late: u64,
}

/// The two halves of a connection that was accepted. They share its one file.
pub fn halves_of(
    alloc: Global,
    stream: TcpStream,
    closing: &Closing,
) -> io::Result<(Incoming, Outgoing)> {
    let look = Some(Duration::from_secs(LOOK));
    stream.set_read_timeout(look)?;
    stream.set_write_timeout(look)?;
    stream.set_nodelay(true)?;
    let stream = Arc::new(alloc, stream)?;
    let other = Arc::try_clone(&stream)?;
    let incoming = Incoming {
        stream,
        closing: closing.share()?,
    };
    let outgoing = Outgoing {
        stream: other,
        closing: closing.share()?,
        late: 0,
    };
    Ok((incoming, outgoing))
}

// Whether a call has come back since its time was over, and nothing else has happened.
fn is_over(moved: &io::Result<usize>) -> bool {
    matches!(moved, Err(e) if e.kind() == ErrorKind::WouldBlock)
}

impl Read for Incoming {
    fn read(&mut self, buf: &mut [u8]) -> io::Result<usize> {
        for _ in 0..SILENCE {
            if self.closing.is_closed() {
                return Ok(0);
            }
            let read = (&*self.stream).read(buf);
            if !is_over(&read) {
                return read;
            }
        }
        Err(Error::from(ErrorKind::TimedOut))
    }
}

impl Outgoing {
    // Notes what came of a write of so many bytes: where the listener was closed, each that didn't take all of them at once counts.
    fn note(&mut self, written: &io::Result<usize>, count: usize) {
        let is_whole = matches!(written, Ok(n) if *n == count);
        if !is_whole && self.closing.is_closed() {
            self.late = self.late.saturating_add(1);
        }
    }
}

impl Write for Outgoing {
    fn write(&mut self, buf: &[u8]) -> io::Result<usize> {
        for _ in 0..SILENCE {
            if self.late >= LATE {
                break;
            }
            let written = (&*self.stream).write(buf);
            self.note(&written, buf.len());
            if !is_over(&written) {
                return written;
            }
        }
        Err(Error::from(ErrorKind::TimedOut))
    }

    fn flush(&mut self) -> io::Result<()> {
        (&*self.stream).flush()
    }
}
