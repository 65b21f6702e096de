// The two files of a store of SQLite, in memory: one of them stops at a call, and a crash leaves what a disk may leave.
use anyhow::Result;
use sqlite::Files;
use sqlite_disk::{Crash, Disk, Fuse, Memory};
use std::alloc::Global;

/// What a disk writes whole, in bytes.
const SECTOR: usize = 512;

/// One of the two files.
#[derive(Clone, Copy)]
pub enum Which {
    Database,
    Log,
}

/// Empty files, of which one answers so many calls and fails at each one behind them.
pub fn empty(alloc: Global, which: Which, calls: u64) -> Files<Fuse<Memory>> {
    let (log, db) = match which {
        Which::Log => (calls, u64::MAX),
        Which::Database => (u64::MAX, calls),
    };
    Files {
        log: Fuse::new(Memory::new(alloc), log),
        db: Fuse::new(Memory::new(alloc), db),
    }
}

// A file of these bytes, which doesn't stop.
fn file(alloc: Global, bytes: &[u8]) -> Result<Fuse<Memory>> {
    let mut memory = Memory::new(alloc);
    memory.write_at(0, bytes)?;
    Ok(Fuse::new(memory, u64::MAX))
}

/// Files of these bytes, which don't stop.
pub fn files_of(alloc: Global, log: &[u8], db: &[u8]) -> Result<Files<Fuse<Memory>>> {
    Ok(Files {
        log: file(alloc, log)?,
        db: file(alloc, db)?,
    })
}

fn is_spent(file: &mut Fuse<Memory>) -> bool {
    !file.may_be_used() || file.len().is_err()
}

/// Whether the file has answered all calls that it answers.
pub fn has_stopped(files: &mut Files<Fuse<Memory>>, which: Which) -> bool {
    match which {
        Which::Log => is_spent(&mut files.log),
        Which::Database => is_spent(&mut files.db),
    }
}

// Of each two sectors the first as it was synced, and the second as it was written.
fn torn(alloc: Global, written: &[u8], synced: &[u8]) -> Result<Vec<u8>> {
    let mut bytes = Vec::from_slice(alloc, written)?;
    for (at, old) in synced.iter().enumerate() {
        if (at / SECTOR) % 2 == 0 && at < bytes.len() {
            bytes[at] = *old;
        }
    }
    Ok(bytes)
}

/// What a file may hold when its disk comes back: all that was written to it, and, where that isn't synced, also only what was,
/// or some sectors of both.
pub fn outcomes(alloc: Global, mut file: Fuse<Memory>) -> Result<Vec<Vec<u8>>> {
    let written = Vec::from_slice(alloc, file.inner().bytes())?;
    file.crash();
    let synced = Vec::from_slice(alloc, file.inner().bytes())?;
    let mut outcomes = Vec::new(alloc);
    if synced.as_slice() != written.as_slice() {
        outcomes.push(torn(alloc, &written, &synced)?)?;
        outcomes.push(synced)?;
    }
    outcomes.push(written)?;
    Ok(outcomes)
}
