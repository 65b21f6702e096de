// What a line is read as, and the faults of lines by their numbers.
use anyhow::Result;
use std::alloc::Global;
use wm_base::Name;
use wm_clwords::{Tree, read_command};
use wm_command::{CmdFault, Line, command};

/// The line that a command is, as the user ANN types it.
pub fn read_line(alloc: Global, bytes: &[u8]) -> Result<Line> {
    line_of(alloc, &read_command(alloc, bytes)?)
}

fn line_of(alloc: Global, tree: &Tree) -> Result<Line> {
    let line = command(alloc, &Name::of(b"ANN"), tree)?;
    Ok(line)
}

/// The fault of a command, or none.
pub fn found(alloc: Global, bytes: &[u8]) -> Result<Option<CmdFault>> {
    let tree = read_command(alloc, bytes)?;
    Ok(command(alloc, &Name::of(b"ANN"), &tree).err())
}

/// The fault's number, and its place, 0 where it has none.
pub fn numbered(fault: CmdFault) -> (u8, usize) {
    match fault {
        CmdFault::UnknownCommand => (1, 0),
        CmdFault::UnknownKeyword(place) => (2, place as usize),
        CmdFault::Twice(place) => (3, place as usize),
        CmdFault::Missing(_) => (4, 0),
        CmdFault::BadValue(place) => (5, place as usize),
        CmdFault::TooManyValues(place) => (6, place as usize),
        CmdFault::Conflict(_, _) => (7, 0),
        CmdFault::NotCall(place) => (8, place as usize),
        CmdFault::NoMemory => (9, 0),
    }
}
