// Listeners: what one in memory gives to two desks, call by call (`data/listener.txt`, `desks`), and what one of the system does
// over sockets of this machine (`sockets`), whose lines are printed one by one.
mod desks;
mod sockets;
mod unused;
mod worker;

use anyhow::Result;
use desks::DeskCases;
use std::net::{Net, TcpListener, TcpStream};
use std::sync::Wait;
use std::thread::Threads;
use std::time::Clock;
use wm_cases::play;

/// Plays the cases of both.
pub fn play_listeners<
    R: Net<Listener = TcpListener, Stream = TcpStream> + Threads + Wait + Clock + Sync,
>(rt: &R, host: &HostRuntime) -> Result<()> {
    play(host, "listener.txt", &mut DeskCases::new(host.alloc(), rt))?;
    sockets::bytes_cross(rt, host)?;
    sockets::a_close_wakes_who_waits(rt, host)?;
    sockets::a_peer_that_left_ends_nothing(rt, host)?;
    sockets::a_close_ends_who_reads(rt, host)
}
