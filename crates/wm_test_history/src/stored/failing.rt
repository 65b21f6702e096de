// Scripts whose every `apply` fails once.
use super::asked::{ask, write_pending};
use super::rows::write_rows;
use crate::calls::OpenFloor;
use crate::opened::{keeper_of, open};
use crate::replies::{KEEPER_FAULT, write_entry};
use anyhow::{Result, bail, ensure};
use std::alloc::Global;
use std::sync::Wait;
use wm_floor::{Closed, Log};
use wm_law::{Entry, Pending};
use wm_outside::MemKeeper;
use wm_traits::Keeper;

/// A script makes fewer calls of `apply`.
const MOST: u32 = 1000;

// What a run leaves, as text, and the line of its script that the keeper failed at.
#[derive(Drop)]
struct Run {
    left: String,
    failed: Option<usize>,
}

// A floor over no rows, which is opened again where the keeper fails.
fn opened(alloc: Global, fail: u32) -> Result<OpenFloor> {
    let mut calls = Vec::new(alloc);
    calls.push(fail)?;
    let keeper = keeper_of(Vec::new(alloc), calls)?;
    let keeper = match open(alloc, keeper, "")? {
        Ok(floor) => return Ok(floor),
        Err((keeper, _)) => keeper,
    };
    match open(alloc, keeper, "")? {
        Ok(floor) => Ok(floor),
        Err((keeper, fault)) => {
            drop(keeper);
            bail!("{fault}")
        }
    }
}

// Asks a line, and answers whether the keeper failed.
fn fails<R: Wait>(rt: &R, alloc: Global, floor: &mut OpenFloor, line: &str) -> Result<bool> {
    let mut answer = String::new(alloc);
    ask(rt, alloc, floor, line, &mut answer)?;
    Ok(answer.as_str() == KEEPER_FAULT)
}

// Asks the lines up to one that the keeper fails at, and answers which that is.
fn ask_all<R: Wait>(
    rt: &R,
    alloc: Global,
    floor: &mut OpenFloor,
    script: &[String],
) -> Result<Option<usize>> {
    for (at, line) in script.iter().enumerate() {
        if fails(rt, alloc, floor, line.as_str())? {
            return Ok(Some(at));
        }
    }
    Ok(None)
}

// The lines before one, and that line with those behind it.
fn split(script: &[String], at: usize) -> (&[String], &[String]) {
    script.split_at(at.min(script.len()))
}

fn write_logged(alloc: Global, entry: &Entry, left: &mut String) -> Result<()> {
    write!(left, "{} {} ", entry.caller, entry.moment)?;
    write_entry(alloc, entry, left)
}

fn write_log(alloc: Global, log: &Log, left: &mut String) -> Result<()> {
    for at in 0..log.len() {
        if let Some(entry) = log.entry(at) {
            write_logged(alloc, entry, left)?;
        }
    }
    Ok(())
}

fn left_by(alloc: Global, pending: &Pending, closed: &mut Closed<MemKeeper>) -> Result<String> {
    let mut left = String::new(alloc);
    write_pending(pending, &mut left)?;
    write_log(alloc, &closed.log, &mut left)?;
    write_rows(&closed.keeper.load()?, &mut left)?;
    Ok(left)
}

// What a floor leaves: what waits for a monitor, the history and the rows.
fn left<R: Wait>(rt: &R, alloc: Global, mut floor: OpenFloor) -> Result<String> {
    let pending = floor.pending(rt);
    let mut closed = floor.close();
    let left = left_by(alloc, &pending, &mut closed);
    drop(closed);
    left
}

// A run up to the line that the keeper fails at.
fn run_until<R: Wait>(rt: &R, alloc: Global, script: &[String], fail: u32) -> Result<Run> {
    let mut floor = opened(alloc, fail)?;
    let failed = ask_all(rt, alloc, &mut floor, script);
    let left = left(rt, alloc, floor)?;
    Ok(Run {
        left,
        failed: failed?,
    })
}

// Asks the lines, and where the keeper fails at one, that line again and those behind it.
fn ask_through<R: Wait>(
    rt: &R,
    alloc: Global,
    floor: &mut OpenFloor,
    script: &[String],
) -> Result<()> {
    let Some(at) = ask_all(rt, alloc, floor, script)? else {
        return Ok(());
    };
    let (_, behind) = split(script, at);
    let again = ask_all(rt, alloc, floor, behind)?;
    ensure!(again.is_none(), "the keeper fails again");
    Ok(())
}

// What a run leaves where the line that the keeper fails at is asked again, and those behind it.
fn run_on<R: Wait>(rt: &R, alloc: Global, script: &[String], fail: u32) -> Result<String> {
    let mut floor = opened(alloc, fail)?;
    let asked = ask_through(rt, alloc, &mut floor, script);
    let left = left(rt, alloc, floor)?;
    asked?;
    Ok(left)
}

// Adds both where they aren't the same.
fn compare(fail: u32, got: &str, wanted: &str, answer: &mut String) -> Result<()> {
    if got != wanted {
        write!(answer, "apply {fail} fails\n{got}and without\n{wanted}")?;
    }
    Ok(())
}

// Whether a run has an `apply` of this number. Where it fails, nothing of its call is left, and the same call again goes on as
// if nothing had failed.
fn fails_once<R: Wait>(
    rt: &R,
    alloc: Global,
    script: &[String],
    fail: u32,
    answer: &mut String,
) -> Result<bool> {
    let run = run_until(rt, alloc, script, fail)?;
    let Some(at) = run.failed else {
        return Ok(false);
    };
    let (ahead, _) = split(script, at);
    let before = run_until(rt, alloc, ahead, 0)?;
    compare(fail, run.left.as_str(), before.left.as_str(), answer)?;
    let (again, whole) = (
        run_on(rt, alloc, script, fail)?,
        run_on(rt, alloc, script, 0)?,
    );
    compare(fail, again.as_str(), whole.as_str(), answer)?;
    Ok(true)
}

/// Lets each `apply` of a script fail once, the first as the floor is opened, and adds each difference and how many there
/// are.
pub fn write_failing<R: Wait>(
    rt: &R,
    alloc: Global,
    script: &[String],
    answer: &mut String,
) -> Result<()> {
    let (again, whole) = (run_on(rt, alloc, script, 1)?, run_on(rt, alloc, script, 0)?);
    compare(1, again.as_str(), whole.as_str(), answer)?;
    for fail in 2..MOST {
        if !fails_once(rt, alloc, script, fail, answer)? {
            writeln!(answer, "{} applies", fail - 1)?;
            return Ok(());
        }
    }
    bail!("too many")
}
