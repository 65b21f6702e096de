// What the machine answers, as text.
use anyhow::{Result, bail};
use std::alloc::AllocError;
use wm_base::{Asked, JobName, QName, StartOrder};
use wm_law::Reply;

// What is said of a reply that names nothing.
fn plain(reply: &Reply) -> Option<&'static str> {
    match reply {
        Reply::Made => Some("OK"),
        Reply::QueueHeld => Some("OK queue held"),
        Reply::QueueReleased => Some("OK queue released"),
        Reply::PreStarted => Some("OK prestart started"),
        Reply::PreEnding => Some("OK prestart ending"),
        Reply::PowerDown => Some("OK power down"),
        Reply::Nothing => Some("NOTHING"),
        Reply::Noted => Some("NOTED"),
        _ => None,
    }
}

// The subsystem that a reply names, and what is said of it.
fn of_subsystem(reply: &Reply) -> Option<(&QName, &'static str)> {
    match reply {
        Reply::SbsStarted(sbsd) => Some((sbsd, "started")),
        Reply::SbsEnding(sbsd) => Some((sbsd, "ending")),
        _ => None,
    }
}

// The job that a reply names, and what is said of it.
fn of_job(reply: &Reply) -> Option<(&JobName, &'static str)> {
    match reply {
        Reply::Held(job) => Some((job, "held")),
        Reply::Released(job) => Some((job, "released")),
        Reply::Changed(job) => Some((job, "changed")),
        Reply::JobEnding(job) => Some((job, "ending")),
        Reply::JobEnded(job) => Some((job, "ended")),
        Reply::Evoked(job) => Some((job, "has the request")),
        Reply::UseEnded(job) => Some((job, "use ended")),
        _ => None,
    }
}

fn write_asked(asked: &Asked, answer: &mut String) -> Result<(), AllocError> {
    match asked {
        Asked::Start(order) => writeln!(answer, "START {}", order.serial),
        Asked::Kill(serial) => writeln!(answer, "KILL {serial}"),
    }
}

// Adds the line of a reply that names more.
fn write_other(reply: &Reply, answer: &mut String) -> Result<()> {
    match reply {
        Reply::Submitted(job, jobq) => writeln!(answer, "OK {job} submitted to {jobq}")?,
        Reply::QueueCleared(count) => writeln!(answer, "OK queue cleared of {count}")?,
        Reply::EvokeWaits(place) => writeln!(answer, "OK request waits as {place}")?,
        Reply::Order(asked) => write_asked(asked.get(), answer)?,
        Reply::No(refusal) => writeln!(answer, "NO {refusal}")?,
        _ => bail!("no such reply"),
    }
    Ok(())
}

fn write_naming(reply: &Reply, answer: &mut String) -> Result<()> {
    if let Some((sbsd, said)) = of_subsystem(reply) {
        return Ok(writeln!(answer, "OK subsystem {sbsd} {said}")?);
    }
    if let Some((job, said)) = of_job(reply) {
        return Ok(writeln!(answer, "OK {job} {said}")?);
    }
    write_other(reply, answer)
}

/// Adds the line of a reply.
pub fn write_reply(reply: &Reply, answer: &mut String) -> Result<()> {
    match plain(reply) {
        Some(said) => Ok(writeln!(answer, "{said}")?),
        None => write_naming(reply, answer),
    }
}

// Adds each argument.
fn write_arguments(order: &StartOrder, answer: &mut String) -> Result<()> {
    for argument in order.args.as_slice() {
        write!(answer, " <{argument}>")?;
    }
    Ok(())
}

// Adds all that is to be started.
fn write_order(order: &StartOrder, answer: &mut String) -> Result<()> {
    let start = if order.pre { "PRESTART" } else { "START" };
    write!(
        answer,
        "{start} {} {} {}",
        order.serial, order.job, order.path
    )?;
    write_arguments(order, answer)?;
    let cls = &order.cls;
    writeln!(
        answer,
        " CLASS {} {} {}",
        cls.runpty, cls.timeslice, cls.dftwait
    )?;
    Ok(())
}

/// Adds the line of a reply, and all of its order where it is one.
pub fn write_ordered(reply: &Reply, answer: &mut String) -> Result<()> {
    if let Some(Asked::Start(order)) = reply.order() {
        return write_order(order, answer);
    }
    write_reply(reply, answer)
}
