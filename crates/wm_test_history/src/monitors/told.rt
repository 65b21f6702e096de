// Answers, as text.
use crate::replies::{push_entries, write_call_fault, write_due, write_lines, write_monitor_fault};
use anyhow::Result;
use std::alloc::{AllocError, Global};
use wm_floor::{Answered, CallFault, Log, MonitorFault, Turned};
use wm_law::Pending;

/// Adds the place of a call's entry, or its fault.
pub fn write_called(called: Result<Answered, CallFault>, answer: &mut String) -> Result<()> {
    match called {
        Ok(answered) => {
            let place = answered.place;
            drop(answered);
            Ok(writeln!(answer, "PLACE {place}")?)
        }
        Err(fault) => write_call_fault(fault, answer),
    }
}

// Adds how many orders waited, how many jobs were busy, and the next moment.
fn write_pending(pending: &Pending, answer: &mut String) -> Result<(), AllocError> {
    let (orders, busy) = (pending.orders, pending.busy);
    write!(answer, "ORDERS {orders} BUSY {busy} ")?;
    write_due(pending.next, answer)
}

/// Adds what a monitor's call answered.
pub fn write_turned(turned: Result<Turned, MonitorFault>, answer: &mut String) -> Result<()> {
    match turned {
        Ok(Turned { sent, at, pending }) => {
            write!(answer, "SENT {sent} AT {at} ")?;
            Ok(write_pending(&pending, answer)?)
        }
        Err(fault) => write_monitor_fault(fault, answer),
    }
}

/// Adds the entries of a history from this place on, counted from 1, one line for each.
pub fn write_log(alloc: Global, log: &Log, first: usize, answer: &mut String) -> Result<()> {
    let mut lines = Vec::new(alloc);
    push_entries(alloc, &mut lines, log, first.saturating_sub(1))?;
    write_lines(&lines, answer)
}
