// What one thread of a server does, over a floor in memory: a worker serves the connections of a listener until none can come any
// more, and a monitor starts the job that one of them has submitted and reports its end, one after another (`site`). And a whole
// server with two workers and two monitors at once, of which one worker is held before its first call until the other's first
// answer was written: so both are at work at once (`server`). And servers with few seats, of whose forms in memory one call may
// fail (`rows`).
//
// Nothing is read. What is printed, and must be printed: why the worker stopped, what was written of each connection, what the
// monitor has met, and the history; and what the servers came to, as far as it isn't the threads' doing.
mod failing;
mod holding;
mod rows;
mod seats;
mod server;
mod site;
mod told;
mod unused;

use anyhow::Result;
use rows::play_rows;
use server::play_server;
use site::play;
use std::sync::Wait;
use std::thread::Threads;

/// Plays all of this, and prints what came of it.
pub fn play_servers<R: Threads + Wait + Sync>(rt: &R, host: &HostRuntime) -> Result<()> {
    let mut told = play(rt, host.alloc())?;
    told.push_str(&play_server(rt, host.alloc())?)?;
    play_rows(rt, host.alloc(), &mut told)?;
    print!(host; "{told}")?;
    Ok(())
}
