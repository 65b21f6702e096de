// A look at a file before SQLite opens it.
use std::fs;
use std::io::{self, Read};
use std::rt::HostRuntime;

// What a file of SQLite's begins with.
const HEADER: &[u8] = b"SQLite format 3\0";

// One byte may be what a first opening that was cut off has left.
fn begins_otherwise(rt: &HostRuntime, path: &str) -> io::Result<bool> {
    let mut first = [0; 16];
    let read = fs::File::open(rt, path)?.read(&mut first)?;
    Ok(read > 1 && !HEADER.starts_with(&first[..read]))
}

fn looked(rt: &HostRuntime, path: &str) -> io::Result<bool> {
    let real = fs::canonicalize(rt, path)?;
    if !fs::metadata(rt, real.as_str())?.is_file() {
        return Ok(false);
    }
    let log = format!(in rt.alloc(); "{}-wal", real.as_str())?;
    if fs::exists(rt, log.as_str())? {
        return Ok(false);
    }
    begins_otherwise(rt, real.as_str())
}

/// Whether a file stands there that is no database by its first bytes, and no log beside it. SQLite refuses it too, but
/// leaves an empty log there. Where the look fails, the opening tells why.
pub(crate) fn is_other(rt: &HostRuntime, path: &str) -> bool {
    looked(rt, path).unwrap_or(false)
}
