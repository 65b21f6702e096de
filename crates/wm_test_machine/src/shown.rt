// The state, as text.
use crate::calls::{holder, next, pending};
use crate::text::qname_of;
use anyhow::{Context, Result, bail};
use std::alloc::AllocError;
use wm_core::Core;
use wm_law::{Job, JobKind, Phase, Power};

fn write_phase(phase: &Phase, answer: &mut String) -> Result<(), AllocError> {
    match phase {
        Phase::Waiting => answer.push_str("WAITING"),
        Phase::Starting => answer.push_str("STARTING"),
        Phase::Handed(monitor) => write!(answer, "HANDED {monitor}"),
        Phase::Running(monitor) => write!(answer, "RUNNING {monitor}"),
        Phase::Ended(cause) => write!(answer, "ENDED {cause}"),
    }
}

fn write_job(job: &Job, answer: &mut String) -> Result<(), AllocError> {
    write!(answer, "{} {} ", job.serial, job.job.name)?;
    write_phase(&job.phase, answer)?;
    answer.push('\n')
}

fn write_jobs(core: &Core, answer: &mut String) -> Result<()> {
    for job in core.jobs().jobs() {
        write_job(job, answer)?;
    }
    Ok(())
}

// A Waiting job by its serial, name, queue, priority, place and moment, and whether it is held.
fn write_waiting_job(job: &Job, answer: &mut String) -> Result<()> {
    let queue = job.jobq.context("a queue")?;
    let held = if job.held { " HELD" } else { "" };
    writeln!(
        answer,
        "{} {} {queue} {} {} DUE {}{held}",
        job.serial, job.job.name, job.pty, job.place, job.due
    )?;
    Ok(())
}

fn write_waiting(core: &Core, answer: &mut String) -> Result<()> {
    for job in core.jobs().jobs() {
        if let Phase::Waiting = job.phase {
            write_waiting_job(job, answer)?;
        }
    }
    Ok(())
}

fn write_next(core: &Core, answer: &mut String) -> Result<()> {
    match next(core) {
        None => answer.push_str("NONE\n")?,
        Some(candidate) => writeln!(answer, "{}", candidate.serial)?,
    }
    Ok(())
}

fn write_holder(core: &Core, queue: &str, answer: &mut String) -> Result<()> {
    let queue = qname_of(queue).context("no qualified name")?;
    match holder(core, &queue) {
        None => answer.push_str("NONE\n")?,
        Some(sbsd) => writeln!(answer, "{sbsd}")?,
    }
    Ok(())
}

fn write_pending(core: &Core, answer: &mut String) -> Result<()> {
    let pending = pending(core);
    write!(
        answer,
        "ACTIVE {} ORDERS {} DUE ",
        pending.active, pending.orders
    )?;
    match pending.next {
        None => answer.push_str("NONE\n")?,
        Some(moment) => writeln!(answer, "{moment}")?,
    }
    Ok(())
}

fn write_power(core: &Core, answer: &mut String) -> Result<()> {
    let power = match core.power() {
        Power::On => "ON",
        Power::Down => "DOWN",
        Power::DownNow => "DOWNNOW",
    };
    writeln!(answer, "{power} STARTED {}", core.started().len())?;
    Ok(())
}

// A prestart job by its serial, phase and uses, and whether it has a request.
fn write_prestart_job(job: &Job, answer: &mut String) -> Result<(), AllocError> {
    write!(answer, "{} ", job.serial)?;
    write_phase(&job.phase, answer)?;
    let evoke = if job.evoke { " IN USE" } else { "" };
    writeln!(answer, " USES {}{evoke}", job.uses)
}

fn write_prestart(core: &Core, answer: &mut String) -> Result<()> {
    for job in core.jobs().jobs() {
        if let JobKind::Pj = job.kind {
            write_prestart_job(job, answer)?;
        }
    }
    Ok(())
}

fn write_stopped(core: &Core, answer: &mut String) -> Result<()> {
    for stop in core.machine().stopped.as_slice() {
        writeln!(answer, "{} {}", stop.sbs, stop.pgm)?;
    }
    Ok(())
}

fn write_requests(core: &Core, answer: &mut String) -> Result<()> {
    for evoke in core.machine().evokes.as_slice() {
        writeln!(answer, "{} {} {}", evoke.user, evoke.sbs, evoke.pgm)?;
    }
    Ok(())
}

/// Adds what the word says: the `jobs` by serial, the `waiting` ones, the `next` one, the `holder` of a queue, what is
/// `pending` for a monitor, the `power` and how many subsystems are started, the `prestart` jobs, the entries that are
/// `stopped`, or the `requests` that wait.
pub fn write_state(core: &Core, what: &str, name: &str, answer: &mut String) -> Result<()> {
    match what {
        "jobs" => write_jobs(core, answer),
        "waiting" => write_waiting(core, answer),
        "next" => write_next(core, answer),
        "holder" => write_holder(core, name, answer),
        "pending" => write_pending(core, answer),
        "power" => write_power(core, answer),
        "prestart" => write_prestart(core, answer),
        "stopped" => write_stopped(core, answer),
        "requests" => write_requests(core, answer),
        _ => bail!("nothing to be shown"),
    }
}
