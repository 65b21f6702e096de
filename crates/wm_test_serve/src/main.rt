//! The cases of HTTP, from bytes to whole servers: requests and responses (`messages`), connections over a floor (`sessions`), and
//! the threads of a server (`servers`), all of them in memory, one part after another.
//!
//! Each of these modules says at its head what is asked, and what must be printed. `floors` opens the floors of the last two,
//! `lines` shows what is written in the first two. With words the files of these names are played as connections are, and nothing
//! else is done.
#![tactic(auto)]

mod floors;
mod lines;
mod messages;
mod servers;
mod sessions;

use anyhow::Result;
use std::env;
use std::sync::Wait;
use std::thread::Threads;

fn play_parts<R: Threads + Wait + Sync>(rt: &R, host: &HostRuntime) -> Result<()> {
    messages::play_messages(host)?;
    sessions::play_sessions(rt, host)?;
    servers::play_servers(rt, host)
}

fn main(rt: HostRuntime) -> Result<()> {
    let files: Vec<String> = env::args(&rt)?.skip(1).collect(rt.alloc())?;
    if files.is_empty() {
        play_parts(&rt, &rt)
    } else {
        sessions::play_named(&rt, &rt, &files)
    }
}
