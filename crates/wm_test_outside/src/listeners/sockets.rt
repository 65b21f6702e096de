// A listener of the system, with peers of this program.
use anyhow::Result;
use std::alloc::Global;
use std::io::{Read, Write};
use std::net::{Net, SocketAddr, TcpListener, TcpStream};
use std::sync::Wait;
use std::thread::{self, Threads, join};
use std::time::{Clock, Duration};
use wm_listener::{Incoming, Listener, Next, Outgoing, SysDesk, SysListener};
use wm_outside::{ReadSource, WriteSink};
use wm_traits::{Failed, Sink, Source};

// A listener at a free port, with its address.
fn listening<R: Net<Listener = TcpListener, Stream = TcpStream>>(
    rt: &R,
    alloc: Global,
) -> Result<(SysListener, SocketAddr)> {
    let listener = TcpListener::bind(rt, "127.0.0.1:0")?;
    let address = listener.local_addr()?;
    Ok((SysListener::new(alloc, listener)?, address))
}

// What a look answers, with nothing done to the connection.
fn word_of(next: &Result<Next<ReadSource<Incoming>, WriteSink<Outgoing>>, Failed>) -> &'static str {
    match next {
        Ok(Next::Here(..)) => "here",
        Ok(Next::Dry) => "dry",
        Ok(Next::Closed) => "closed",
        Err(Failed) => "failed",
    }
}

// Reads four bytes, and sends them back.
fn echo(mut input: ReadSource<Incoming>, mut output: WriteSink<Outgoing>) -> usize {
    let mut bytes = [0; 4];
    let read = input.read(&mut bytes).unwrap_or(0);
    output.write(&bytes[..read.min(4)]).unwrap_or(0)
}

/// What a peer sends is read, what is written comes to it, and behind it the end.
pub fn bytes_cross<R: Net<Listener = TcpListener, Stream = TcpStream> + Wait>(
    rt: &R,
    host: &HostRuntime,
) -> Result<()> {
    let (listener, address) = listening(rt, host.alloc())?;
    let mut peer = TcpStream::connect(rt, address)?;
    peer.write_all(b"ping")?;
    let mut desk = SysDesk::new();
    let echoed = match listener.next(rt, &mut desk) {
        Ok(Next::Here(input, output)) => echo(input, output),
        _ => 0,
    };
    let mut bytes = [0; 16];
    let first = peer.read(&mut bytes)?;
    let behind = peer.read(&mut bytes[first.min(16)..])?;
    println!(host; "bytes cross: {echoed} written, {first} read, {behind} behind them")?;
    Ok(())
}

/// A worker that waits is told at once that the listener was closed, and so is one that comes later.
pub fn a_close_wakes_who_waits<
    R: Net<Listener = TcpListener, Stream = TcpStream> + Threads + Wait + Clock + Sync,
>(rt: &R, host: &HostRuntime) -> Result<()> {
    let (listener, _) = listening(rt, host.alloc())?;
    let mut desk = SysDesk::new();
    let mut late = SysDesk::new();
    let (waited, _) = join(
        rt,
        || listener.next(rt, &mut desk),
        || {
            thread::sleep(rt, Duration::from_millis(100));
            listener.close();
        },
    );
    let later = listener.next(rt, &mut late);
    println!(host;
        "a close wakes who waits: {}, {}",
        word_of(&waited),
        word_of(&later)
    )?;
    Ok(())
}

/// A peer that has left before it was taken is a connection that has ended, and the next one is given.
pub fn a_peer_that_left_ends_nothing<R: Net<Listener = TcpListener, Stream = TcpStream> + Wait>(
    rt: &R,
    host: &HostRuntime,
) -> Result<()> {
    let (listener, address) = listening(rt, host.alloc())?;
    drop(TcpStream::connect(rt, address)?);
    let mut peer = TcpStream::connect(rt, address)?;
    peer.write_all(b"ping")?;
    let mut first = SysDesk::new();
    let mut second = SysDesk::new();
    let left = listener.next(rt, &mut first);
    let here = listener.next(rt, &mut second);
    println!(host;
        "a peer that left ends nothing: {}, {}",
        word_of(&left),
        word_of(&here)
    )?;
    Ok(())
}

/// A close ends the connection of a peer that is silent, which is then at its end, and so is one whose bytes weren't read yet.
pub fn a_close_ends_who_reads<
    R: Net<Listener = TcpListener, Stream = TcpStream> + Threads + Wait + Clock + Sync,
>(rt: &R, host: &HostRuntime) -> Result<()> {
    let (listener, address) = listening(rt, host.alloc())?;
    let mut peer = TcpStream::connect(rt, address)?;
    let mut desk = SysDesk::new();
    let Ok(Next::Here(mut input, _output)) = listener.next(rt, &mut desk) else {
        return Ok(());
    };
    let mut bytes = [0; 4];
    let (silent, _) = join(
        rt,
        || input.read(&mut bytes).ok(),
        || {
            thread::sleep(rt, Duration::from_millis(100));
            listener.close();
        },
    );
    peer.write_all(b"ping")?;
    let late = input.read(&mut bytes).ok();
    println!(host; "a close ends who reads: {silent:?}, {late:?}")?;
    Ok(())
}
