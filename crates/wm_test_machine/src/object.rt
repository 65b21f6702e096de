// The objects and their entries, as text.
use crate::text::qname_of;
use anyhow::{Context, Result, bail};
use std::alloc::{AllocError, Global};
use wm_base::Limit;
use wm_desc::{Cmp, Jobd, Objects, PreEntry, QueueEntry, RouteEntry, Sbsd, Table};

// The object of that name.
fn object<'a, V>(table: &'a Table<V>, name: &str) -> Result<&'a V> {
    let name = qname_of(name).context("no qualified name")?;
    table.object(&name).context("NONE")
}

fn write_counts(objects: &Objects, answer: &mut String) -> Result<()> {
    let (classes, jobqs, programs) = (
        objects.classes.len(),
        objects.jobqs.len(),
        objects.programs.len(),
    );
    let (jobds, sbsds) = (objects.jobds.len(), objects.sbsds.len());
    writeln!(
        answer,
        "CLS {classes} JOBQ {jobqs} PGM {programs} JOBD {jobds} SBSD {sbsds}"
    )?;
    Ok(())
}

fn write_class(objects: &Objects, name: &str, answer: &mut String) -> Result<()> {
    let cls = object(&objects.classes, name)?;
    writeln!(
        answer,
        "RUNPTY {} TIMESLICE {} DFTWAIT {}",
        cls.runpty, cls.timeslice, cls.dftwait
    )?;
    Ok(())
}

fn write_queue(objects: &Objects, name: &str, answer: &mut String) -> Result<()> {
    let _queue = object(&objects.jobqs, name)?;
    answer.push_str("THERE\n")?;
    Ok(())
}

fn write_program(objects: &Objects, name: &str, answer: &mut String) -> Result<()> {
    let program = object(&objects.programs, name)?;
    writeln!(answer, "PATH {}", program.path)?;
    Ok(())
}

fn request_text(jobd: &Jobd) -> &str {
    match &jobd.rqsdta {
        None => "*NONE",
        Some(request) => request.as_str(),
    }
}

fn write_jobd(objects: &Objects, name: &str, answer: &mut String) -> Result<()> {
    let jobd = object(&objects.jobds, name)?;
    write!(answer, "JOBQ {} JOBPTY {}", jobd.jobq, jobd.pty)?;
    write!(
        answer,
        " RTGDTA {} RQSDTA {}",
        jobd.rtgdta,
        request_text(jobd)
    )?;
    answer.push_str(if jobd.hold {
        " HOLD *YES\n"
    } else {
        " HOLD *NO\n"
    })?;
    Ok(())
}

// How many entries a description has of each kind.
fn write_description(objects: &Objects, name: &str, answer: &mut String) -> Result<()> {
    let sbsd = object(&objects.sbsds, name)?;
    write!(
        answer,
        "MAXJOBS {} JOBQE {}",
        sbsd.maxjobs,
        sbsd.queues.len()
    )?;
    let (routes, autos, pres) = (sbsd.routes.len(), sbsd.autos.len(), sbsd.pres.len());
    writeln!(answer, " RTGE {routes} AJE {autos} PJE {pres}")?;
    Ok(())
}

fn write_limits(limits: &[Limit], answer: &mut String) -> Result<(), AllocError> {
    for limit in limits {
        write!(answer, " {limit}")?;
    }
    Ok(())
}

/// Adds the line of a queue entry.
pub fn write_queue_entry(entry: &QueueEntry, answer: &mut String) -> Result<()> {
    write!(
        answer,
        "{} {} MAXACT {}",
        entry.seq, entry.jobq, entry.maxact
    )?;
    answer.push_str(" MAXPTY")?;
    write_limits(&entry.maxpty, answer)?;
    answer.push('\n')?;
    Ok(())
}

fn write_queues(sbsd: &Sbsd, answer: &mut String) -> Result<()> {
    for entry in sbsd.queues.as_slice() {
        write_queue_entry(entry, answer)?;
    }
    Ok(())
}

fn write_compared(cmp: &Cmp, answer: &mut String) -> Result<(), AllocError> {
    match cmp {
        Cmp::Any => answer.push_str(" *ANY"),
        Cmp::Val { value, start } => write!(answer, " '{value}' {start}"),
    }
}

fn write_route(entry: &RouteEntry, answer: &mut String) -> Result<(), AllocError> {
    write!(answer, "{}", entry.seq)?;
    write_compared(&entry.cmp, answer)?;
    write!(answer, " {} {}", entry.pgm, entry.cls)?;
    writeln!(answer, " MAXACT {} POOLID {}", entry.maxact, entry.poolid)
}

fn write_routes(sbsd: &Sbsd, answer: &mut String) -> Result<()> {
    for entry in sbsd.routes.as_slice() {
        write_route(entry, answer)?;
    }
    Ok(())
}

fn write_autos(sbsd: &Sbsd, answer: &mut String) -> Result<()> {
    for entry in sbsd.autos.as_slice() {
        writeln!(answer, "{} {}", entry.job, entry.jobd)?;
    }
    Ok(())
}

fn write_pre(entry: &PreEntry, answer: &mut String) -> Result<()> {
    let (jobs, threshold, more) = (entry.inljobs, entry.threshold, entry.adljobs);
    let (starts, most, uses, wait) = (entry.strjobs, entry.maxjobs, entry.maxuse, entry.wait);
    write!(answer, "{} {starts} {jobs} {threshold} {more}", entry.pgm)?;
    writeln!(
        answer,
        " {most} {uses} {wait} {} {}",
        entry.cls, entry.poolid
    )?;
    Ok(())
}

fn write_pres(sbsd: &Sbsd, answer: &mut String) -> Result<()> {
    for entry in sbsd.pres.as_slice() {
        write_pre(entry, answer)?;
    }
    Ok(())
}

/// Adds what the word says: the `counts` of all objects, or the object of that name: a `class`, a `queue`, a `program`,
/// a `jobd`, or of a subsystem description what its `description`, its `queues`, its `routes`, its `autos` or its `pres`
/// have.
pub fn write_objects(objects: &Objects, what: &str, name: &str, answer: &mut String) -> Result<()> {
    match what {
        "counts" => write_counts(objects, answer),
        "class" => write_class(objects, name, answer),
        "queue" => write_queue(objects, name, answer),
        "program" => write_program(objects, name, answer),
        "jobd" => write_jobd(objects, name, answer),
        "description" => write_description(objects, name, answer),
        "queues" => write_queues(object(&objects.sbsds, name)?, answer),
        "routes" => write_routes(object(&objects.sbsds, name)?, answer),
        "autos" => write_autos(object(&objects.sbsds, name)?, answer),
        "pres" => write_pres(object(&objects.sbsds, name)?, answer),
        _ => bail!("nothing to be shown"),
    }
}

// Adds the objects of a table under their names.
fn write_table<V>(
    alloc: Global,
    objects: &Objects,
    table: &Table<V>,
    what: &str,
    answer: &mut String,
) -> Result<()> {
    for (name, _) in table.as_slice() {
        let name = format!(in alloc; "{name}")?;
        writeln!(answer, "{what} {name}")?;
        write_objects(objects, what, name.as_str(), answer)?;
    }
    Ok(())
}

// Adds all objects with all that they have.
fn write_all(alloc: Global, objects: &Objects, answer: &mut String) -> Result<()> {
    write_table(alloc, objects, &objects.classes, "class", answer)?;
    write_table(alloc, objects, &objects.jobqs, "queue", answer)?;
    write_table(alloc, objects, &objects.programs, "program", answer)?;
    write_table(alloc, objects, &objects.jobds, "jobd", answer)?;
    write_table(alloc, objects, &objects.sbsds, "description", answer)?;
    write_table(alloc, objects, &objects.sbsds, "queues", answer)?;
    write_table(alloc, objects, &objects.sbsds, "routes", answer)?;
    write_table(alloc, objects, &objects.sbsds, "autos", answer)?;
    write_table(alloc, objects, &objects.sbsds, "pres", answer)
}

/// Adds whether a copy of the objects is equal to them: whether both are the same text.
pub fn write_copied(alloc: Global, objects: &Objects, answer: &mut String) -> Result<()> {
    let copy = objects.clone()?;
    let (mut written, mut again) = (String::new(alloc), String::new(alloc));
    write_all(alloc, objects, &mut written)?;
    write_all(alloc, &copy, &mut again)?;
    answer.push_str(if written == again {
        "EQUAL\n"
    } else {
        "OTHER\n"
    })?;
    Ok(())
}
