// A listener of the system, over a socket of TCP.
ghost use Rattle.std.specs.Prelude.{◌≡◌, None, IsSome, IfOk, IfSome, if◌then◌else◌};
ghost use Rattle.wm_traits.specs.Told.{Stays};
ghost use Rattle.wm_traits.specs.Cause.{HasCause, raised};
ghost use Rattle.wm_listener.specs.System.{AreNew};

use super::closing::Closing;
use super::desk::SysDesk;
use super::halves::{Incoming, Outgoing, halves_of};
use crate::{Listener, Next};
use std::alloc::{AllocError, Global};
use std::io;
use std::io::ErrorKind;
use std::net::{Shutdown, TcpListener, TcpStream};
use std::os::fd::OwnedFd;
use std::sync::Wait;
use std::time::Duration;
use wm_outside::{ReadSource, WriteSink};
use wm_traits::Failed;

// How long a listener pauses where the system has no connection for it, as where its table of files is full: in milliseconds.
const PAUSE: u64 = 20;

/// A source and a sink over the two halves of one socket.
type Halves = (ReadSource<Incoming>, WriteSink<Outgoing>);

/// A listener of the system. Any number of threads may wait at it.
#[derive(Drop)]
pub struct SysListener {
    alloc: Global,
    listener: TcpListener,
    closing: Closing,
}

impl SysListener {
    /// A listener over a socket that listens.
    pub fn new(alloc: Global, listener: TcpListener) -> Result<SysListener, AllocError> {
        let closing = Closing::new(alloc)?;
        Ok(SysListener {
            alloc,
            listener,
            closing,
        })
    }

    // One connection. A peer that was gone before it was taken is an error, too.
    fn accept(&self) -> io::Result<Halves>
        ensures { IfOk result AreNew }
    {
        let (stream, _) = self.listener.accept()?;
        let (incoming, outgoing) = halves_of(self.alloc, stream, &self.closing)?;
        Ok((ReadSource::new(incoming), WriteSink::new(outgoing)))
    }

    // Waits for a connection; there is none once it was closed. Where the system has none for it now, it tries again.
    fn wait<R: Wait>(&self, rt: &R) -> Result<Option<Halves>, Failed>
        ensures { IfOk result (λ halves. IfSome halves AreNew) }
    {
        for _ in rt.forever() {
            if self.closing.is_closed() {
                return Ok(None);
            }
            match self.accept() {
                Ok(halves) => return Ok(Some(halves)),
                Err(e) if e.kind() == ErrorKind::InvalidInput && !self.closing.is_closed() => {
                    return Err(Failed);
                }
                Err(_) => self.closing.pause(rt, Duration::from_millis(PAUSE)),
            }
        }
        unreachable!()
    }
}

impl Listener for SysListener {
    type I = ReadSource<Incoming>;

    type O = WriteSink<Outgoing>;

    type D = SysDesk;

    fn next<R: Wait>(
        &self,
        rt: &R,
        desk: &mut SysDesk,
    ) -> Result<Next<ReadSource<Incoming>, WriteSink<Outgoing>>, Failed> {
        match self.wait(rt) {
            Ok(None) => Ok(Next::Closed),
            Ok(Some((input, output))) => {
                desk.holds = true;
                Ok(Next::Here(input, output))
            }
            Err(failed) => {
                desk.faults = desk.faults.saturating_add(1);
                Err(failed)
            }
        }
    }

    fn done(&self, desk: &mut SysDesk, input: ReadSource<Incoming>, output: WriteSink<Outgoing>) {
        drop(input);
        drop(output);
        desk.holds = false;
    }

    fn close(&self) {
        self.closing.close();
        if let Ok(listener) = self.listener.try_clone() {
            let socket = TcpStream::from(OwnedFd::from(listener));
            let _ = socket.shutdown(Shutdown::Both);
        }
    }
}
