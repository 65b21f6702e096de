// Streams and a clock of the tests, which fail where a case wants it.
use std::cell::Cell;
use std::io::{Error, ErrorKind, Read, Write};
use std::time::Duration;
use std::{io, rt};

/// A stream that is interrupted so often before each call, and broken from its third call on.
#[derive(Drop)]
pub struct Flaky {
    interruptions: u32,
    calls: u32,
    interrupted: u32,
}

impl Flaky {
    pub fn new(interruptions: u32) -> Flaky {
        Flaky {
            interruptions,
            calls: 0,
            interrupted: 0,
        }
    }

    fn call(&mut self) -> io::Result<()> {
        if self.interrupted < self.interruptions {
            self.interrupted += 1;
            return Err(Error::from(ErrorKind::Interrupted));
        }
        self.interrupted = 0;
        self.calls = self.calls.saturating_add(1);
        if self.calls > 2 {
            return Err(Error::from(ErrorKind::BrokenPipe));
        }
        Ok(())
    }
}

impl Read for Flaky {
    fn read(&mut self, buf: &mut [u8]) -> io::Result<usize> {
        self.call()?;
        if buf.is_empty() {
            return Ok(0);
        }
        buf[0] = b'x';
        Ok(1)
    }
}

impl Write for Flaky {
    fn write(&mut self, buf: &[u8]) -> io::Result<usize> {
        self.call()?;
        Ok(buf.len().min(1))
    }

    fn flush(&mut self) -> io::Result<()> {
        Ok(())
    }
}

/// A writer that takes nothing.
#[derive(Drop)]
pub struct Full;

impl Write for Full {
    fn write(&mut self, _buf: &[u8]) -> io::Result<usize> {
        Ok(0)
    }

    fn flush(&mut self) -> io::Result<()> {
        Ok(())
    }
}

/// A clock that stands at a second, or can't be read.
#[derive(Drop)]
pub struct Stopped(pub Option<u64>);

impl rt::Clock for Stopped {
    fn monotonic(&self) -> io::Result<Duration> {
        Err(Error::from(ErrorKind::Unsupported))
    }

    fn since_1970(&self) -> io::Result<Duration> {
        match self.0 {
            Some(seconds) => Ok(Duration::from_secs(seconds)),
            None => Err(Error::from(ErrorKind::Unsupported)),
        }
    }
}

/// A clock that is set back after it was read once.
#[derive(Drop)]
pub struct SetBack {
    next: Cell<u64>,
    later: u64,
}

impl SetBack {
    /// A clock that stands at the first second, and then at the later one.
    pub fn new(first: u64, later: u64) -> SetBack {
        SetBack {
            next: Cell::new(first),
            later,
        }
    }
}

impl rt::Clock for SetBack {
    fn monotonic(&self) -> io::Result<Duration> {
        Err(Error::from(ErrorKind::Unsupported))
    }

    fn since_1970(&self) -> io::Result<Duration> {
        Ok(Duration::from_secs(self.next.replace(self.later)))
    }
}
