// Connections over HTTP: bytes that are sent over a shared floor in memory, and what is answered.
//
// Each question of a file that begins with `serve` or `count` is one connection over a floor of its own, whose history is STRSBS
// QGPL/QBATCH by QSYS at the moment 1000. The clock of the connection begins at 2000 and goes on by a second. `connections` says
// which questions there are. `bench/connections.py` writes the files.
mod again;
mod connections;
mod counting;
mod serving;
mod shown;

use anyhow::Result;
use connections::Connections;
use std::sync::Wait;
use wm_cases::play;

/// The files of connections.
static FILES: [&str; 6] = [
    "heads.txt",
    "bodies.txt",
    "answers.txt",
    "ends.txt",
    "faults.txt",
    "pieces.txt",
];

fn play_all<R: Wait>(host: &HostRuntime, connections: &mut Connections<'_, R>) -> Result<()> {
    for file in &FILES {
        play(host, file, connections)?;
    }
    Ok(())
}

fn play_each<R: Wait>(
    host: &HostRuntime,
    connections: &mut Connections<'_, R>,
    files: &[String],
) -> Result<()> {
    for file in files {
        play(host, file.as_str(), connections)?;
    }
    Ok(())
}

/// Plays the cases of the files.
pub fn play_sessions<R: Wait>(rt: &R, host: &HostRuntime) -> Result<()> {
    let mut connections = Connections::new(rt, host.alloc());
    let played = play_all(host, &mut connections);
    drop(connections);
    played
}

/// Plays the cases of these files in place of them.
pub fn play_named<R: Wait>(rt: &R, host: &HostRuntime, files: &[String]) -> Result<()> {
    let mut connections = Connections::new(rt, host.alloc());
    let played = play_each(host, &mut connections, files);
    drop(connections);
    played
}
