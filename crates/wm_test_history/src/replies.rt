// Entries, orders and faults, as text.
use anyhow::{Context, Result, bail, ensure};
use std::alloc::{AllocError, Global};
use std::str;
use wm_base::{Asked, Moment, NoMemory};
use wm_floor::{Answered, CallFault, Log, MonitorFault, OpenFault};
use wm_law::{Call, Entry, Reply};
use wm_listing::{mention_of, push_entry, said};

/// The answer to a call whose rows the keeper didn't keep.
pub const KEEPER_FAULT: &str = "KEEPERFAULT\n";

// Adds an order, which is what a spawner is asked.
fn write_order(asked: &Asked, answer: &mut String) -> Result<(), AllocError> {
    match asked {
        Asked::Start(order) => writeln!(answer, "START {}", order.serial),
        Asked::Kill(serial) => writeln!(answer, "KILL {serial}"),
    }
}

/// Adds what a spawner was asked, one line for each.
pub fn write_asked(asked: &[Asked], answer: &mut String) -> Result<()> {
    for asked in asked {
        write_order(asked, answer)?;
    }
    Ok(())
}

// Adds what a monitor is answered.
fn write_noted(reply: &Reply, answer: &mut String) -> Result<()> {
    match reply {
        Reply::Order(asked) => Ok(write_order(asked.get(), answer)?),
        Reply::Nothing => Ok(answer.push_str("NOTHING\n")?),
        Reply::Noted => Ok(answer.push_str("NOTED\n")?),
        Reply::No(refusal) => Ok(writeln!(answer, "NO {refusal}")?),
        _ => bail!("no reply to a monitor"),
    }
}

// Adds what is said of a call that was answered so.
fn write_said(alloc: Global, call: &Call, reply: &Reply, answer: &mut String) -> Result<()> {
    match call {
        Call::Change { command, .. } => {
            let text = said(alloc, &mention_of(command.get()), reply)?;
            writeln!(answer, "{text}")?;
            Ok(())
        }
        _ => write_noted(reply, answer),
    }
}

/// Adds what is said of an entry.
pub fn write_entry(alloc: Global, entry: &Entry, answer: &mut String) -> Result<()> {
    write_said(alloc, &entry.call, &entry.reply, answer)
}

// The entry at a place that was told, which is the last.
fn last(log: &Log, place: u32) -> Result<&Entry> {
    let at = (place as usize).checked_sub(1).context("no place")?;
    ensure!(
        log.len() == place as usize,
        "{} entries, and the place {place}",
        log.len()
    );
    log.entry(at).context("no entry")
}

// Adds the answer of a call, whose entry is the last: its place, and what is said of the reply.
fn write_answered(
    alloc: Global,
    log: &Log,
    answered: &Answered,
    answer: &mut String,
) -> Result<()> {
    let entry = last(log, answered.place)?;
    write!(answer, "{} ", answered.place)?;
    write_said(alloc, &entry.call, &answered.reply, answer)
}

/// Adds why a call made no entry.
pub fn write_call_fault(fault: CallFault, answer: &mut String) -> Result<()> {
    match fault {
        CallFault::KeeperFault => Ok(answer.push_str(KEEPER_FAULT)?),
        CallFault::LogFull(limit) => Ok(writeln!(answer, "LOGFULL {limit}")?),
        CallFault::NoMemory => bail!("out of memory"),
    }
}

/// Adds what became of a call behind which this is the history: its place and its reply, or the fault.
pub fn write_called(
    alloc: Global,
    log: &Log,
    called: Result<Answered, CallFault>,
    answer: &mut String,
) -> Result<()> {
    match called {
        Ok(answered) => write_answered(alloc, log, &answered, answer),
        Err(fault) => write_call_fault(fault, answer),
    }
}

/// Adds why a monitor's turn or wait ended early.
pub fn write_monitor_fault(fault: MonitorFault, answer: &mut String) -> Result<()> {
    match fault {
        MonitorFault::WaitFault => Ok(answer.push_str("WAITFAULT\n")?),
        MonitorFault::KeeperFault => Ok(answer.push_str(KEEPER_FAULT)?),
        MonitorFault::LogFull(limit) => Ok(writeln!(answer, "LOGFULL {limit}")?),
        MonitorFault::NoMemory => bail!("out of memory"),
    }
}

/// Adds why a floor wasn't opened.
pub fn write_open_fault(fault: OpenFault, answer: &mut String) -> Result<()> {
    match fault {
        OpenFault::KeeperFault => Ok(answer.push_str(KEEPER_FAULT)?),
        OpenFault::BadRow(row) => Ok(writeln!(answer, "BADROW {row}")?),
        OpenFault::NoMemory => bail!("out of memory"),
    }
}

/// Adds the next moment at which something is due.
pub fn write_due(next: Option<Moment>, answer: &mut String) -> Result<(), AllocError> {
    match next {
        None => answer.push_str("DUE NONE\n"),
        Some(moment) => writeln!(answer, "DUE {moment}"),
    }
}

/// Adds the lines of a history behind this many entries, each with its place.
pub fn push_entries(
    alloc: Global,
    out: &mut Vec<u8>,
    log: &Log,
    behind: usize,
) -> Result<(), NoMemory> {
    for at in behind..log.len() {
        if let Some(entry) = log.entry(at) {
            push_entry(alloc, out, at + 1, entry)?;
        }
    }
    Ok(())
}

/// Adds lines that are given as bytes.
pub fn write_lines(lines: &[u8], answer: &mut String) -> Result<()> {
    answer.push_str(str::from_utf8(lines)?)?;
    Ok(())
}
