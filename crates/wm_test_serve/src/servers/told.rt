// What came of a worker and of a monitor, as text.
use anyhow::{Result, bail};
use std::alloc::Global;
use std::str;
use wm_floor::{Log, MonitorFault};
use wm_listener::Returned;
use wm_listing::push_entry;
use wm_serve::Stopped;

/// Adds why a worker stopped.
pub fn tell_stopped(stopped: Stopped, told: &mut String) -> Result<()> {
    let word = match stopped {
        Stopped::Dry => "no connection can come any more",
        Stopped::Closed => "the listener was closed",
        Stopped::Failed => "a look failed",
        Stopped::NoMemory => "there was no memory",
    };
    writeln!(told, "worker: {word}")?;
    Ok(())
}

/// Adds what was written of each connection, the ends of its lines without their carriage returns.
pub fn tell_written(had: &[Returned], told: &mut String) -> Result<()> {
    for returned in had {
        let Ok(text) = str::from_utf8(returned.output.bytes()) else {
            bail!("no UTF-8")
        };
        for line in text.split('\n') {
            writeln!(told, "{}", line.trim_end())?;
        }
    }
    Ok(())
}

/// Adds what a monitor has met.
pub fn tell_met(met: Option<MonitorFault>, told: &mut String) -> Result<()> {
    let word = if met.is_some() { "a fault" } else { "nothing" };
    writeln!(told, "monitor: {word}")?;
    Ok(())
}

/// Adds a history, a line for each entry.
pub fn tell_log(alloc: Global, log: &Log, told: &mut String) -> Result<()> {
    let mut lines = Vec::new(alloc);
    for at in 0..log.len() {
        if let Some(entry) = log.entry(at) {
            push_entry(alloc, &mut lines, at + 1, entry)?;
        }
    }
    told.push_str(str::from_utf8(&lines)?)?;
    Ok(())
}
