// Answers as a case writes them.
use super::words::BAR;
use anyhow::Result;
use std::alloc::{AllocError, Global};
use std::fmt::Write;
use wm_base::{Args, Asked, Class, Event, StartOrder, Text};
use wm_cases::visible;
use wm_traits::{Failed, StartFault};

/// The answer of a call that failed.
pub const FAILED: &str = "FAILED\n";

/// The bytes in one line.
pub fn answer_bytes(alloc: Global, bytes: &[u8], answer: &mut String) -> Result<()> {
    answer.push_str(visible(alloc, bytes)?.as_str())?;
    answer.push('\n')?;
    Ok(())
}

/// How a start went.
pub fn answer_start(started: Result<(), StartFault>, answer: &mut String) -> Result<()> {
    answer.push_str(match started {
        Ok(()) => "STARTED\n",
        Err(StartFault::Failed) => FAILED,
        Err(StartFault::NoMemory) => "NO MEMORY\n",
    })?;
    Ok(())
}

/// Whether a child that was to be killed was out.
pub fn answer_kill(was_out: Result<bool, Failed>, answer: &mut String) -> Result<()> {
    match was_out {
        Ok(was_out) => Ok(writeln!(answer, "{was_out}")?),
        Err(Failed) => Ok(answer.push_str(FAILED)?),
    }
}

fn answer_event(event: &Event, answer: &mut String) -> Result<()> {
    match event {
        Event::Ended(serial, exit) => Ok(writeln!(answer, "{serial} {exit}")?),
        Event::Used(serial) => Ok(writeln!(answer, "{serial} USED")?),
    }
}

/// What a look or a wait found.
pub fn answer_look(found: Result<Option<Event>, Failed>, answer: &mut String) -> Result<()> {
    match found {
        Ok(Some(event)) => answer_event(&event, answer),
        Ok(None) => Ok(answer.push_str("NONE\n")?),
        Err(Failed) => Ok(answer.push_str(FAILED)?),
    }
}

fn answer_class(cls: &Class, answer: &mut String) -> Result<(), AllocError> {
    write!(answer, "{} {} {} ", cls.runpty, cls.timeslice, cls.dftwait)
}

fn answer_program(path: &Text, args: &Args, answer: &mut String) -> Result<(), AllocError> {
    write!(answer, "{path}")?;
    for arg in args.as_slice() {
        write!(answer, "{BAR}{arg}")?;
    }
    answer.push('\n')
}

// All that an order says, in one line.
fn answer_order(order: &StartOrder, answer: &mut String) -> Result<()> {
    let pre = if order.pre { "pre " } else { "" };
    write!(answer, "start {pre}{} {} ", order.serial, order.job)?;
    answer_class(&order.cls, answer)?;
    answer_program(&order.path, &order.args, answer)?;
    Ok(())
}

fn answer_one(asked: &Asked, answer: &mut String) -> Result<()> {
    match asked {
        Asked::Start(order) => answer_order(order, answer),
        Asked::Kill(serial) => Ok(writeln!(answer, "kill {serial}")?),
    }
}

/// The starts and kills that a spawner was asked for, a line each.
pub fn answer_asked(all_asked: &[Asked], answer: &mut String) -> Result<()> {
    for asked in all_asked {
        answer_one(asked, answer)?;
    }
    Ok(())
}
