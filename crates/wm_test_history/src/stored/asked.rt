// What an open floor is asked:
//
// > TEXT                 the command of this CL text, which QUSER calls: the number of its entry and the reply, `LOGFULL N` or
//                        `KEEPERFAULT`
// > as USER TEXT         the same of another user
// > monitor 1 hand       a call of a monitor, by the words of `monitor_calls`, and the answers of a command
// > split                splits off a pass: its number
// > join 2               joins the pass of this number
// > log                  how many entries there are
// > pending              what waits for the monitor of pass 1: how many jobs are active, how many orders it has, and the next
//                        moment
ghost use Rattle.wm_law.specs.Fit.{IsCall};

use crate::calls::{NOW, OpenFloor, SESSION};
use crate::commands::text_call;
use crate::monitor_calls::call_of;
use crate::replies::{write_called, write_due};
use crate::words::first_word;
use anyhow::{Context, Result};
use std::alloc::Global;
use std::sync::Wait;
use wm_base::{Moment, Name};
use wm_law::{Call, Pending};

// Makes a call, and adds what became of it.
fn call<R: Wait>(
    rt: &R,
    alloc: Global,
    floor: &mut OpenFloor,
    caller: u32,
    call: Call,
    answer: &mut String,
) -> Result<()>
    requires fit { IsCall call }
{
    let called = floor.call(rt, alloc, caller, call, Moment::new(NOW))?;
    let log = floor.log(rt, alloc)?;
    write_called(alloc, &log, called, answer)
}

// Calls the command that a CL text is.
fn change<R: Wait>(
    rt: &R,
    alloc: Global,
    floor: &mut OpenFloor,
    user: &Name,
    text: &str,
    answer: &mut String,
) -> Result<()> {
    let made = text_call(alloc, user, text)?;
    call(rt, alloc, floor, SESSION, made, answer)
}

fn change_as<R: Wait>(
    rt: &R,
    alloc: Global,
    floor: &mut OpenFloor,
    words: &str,
    answer: &mut String,
) -> Result<()> {
    let (user, text) = first_word(words);
    let user = Name::read(user.as_bytes()).context("no user")?;
    change(rt, alloc, floor, &user, text, answer)
}

fn report<R: Wait>(
    rt: &R,
    alloc: Global,
    floor: &mut OpenFloor,
    words: &str,
    answer: &mut String,
) -> Result<()> {
    let (monitor, words) = first_word(words);
    let monitor = monitor.parse::<u32>()?;
    let made = call_of(words)?;
    call(rt, alloc, floor, monitor, made, answer)
}

/// Adds what waits for the monitor.
pub fn write_pending(pending: &Pending, answer: &mut String) -> Result<()> {
    let (active, orders) = (pending.active, pending.orders);
    write!(answer, "ACTIVE {active} ORDERS {orders} ")?;
    Ok(write_due(pending.next, answer)?)
}

fn split(floor: &mut OpenFloor, answer: &mut String) -> Result<()> {
    let number = floor.split()?;
    Ok(writeln!(answer, "{number}")?)
}

fn write_count<R: Wait>(
    rt: &R,
    alloc: Global,
    floor: &mut OpenFloor,
    answer: &mut String,
) -> Result<()> {
    let log = floor.log(rt, alloc)?;
    Ok(writeln!(answer, "{}", log.len())?)
}

/// Answers by the first word, which is the name of a command where it is none of these.
pub fn ask<R: Wait>(
    rt: &R,
    alloc: Global,
    floor: &mut OpenFloor,
    question: &str,
    answer: &mut String,
) -> Result<()> {
    let (word, words) = first_word(question);
    match word {
        "as" => change_as(rt, alloc, floor, words, answer),
        "monitor" => report(rt, alloc, floor, words, answer),
        "split" => split(floor, answer),
        "join" => floor.join(words.parse::<u32>()?),
        "log" => write_count(rt, alloc, floor, answer),
        "pending" => write_pending(&floor.pending(rt), answer),
        _ => change(rt, alloc, floor, &Name::of(b"QUSER"), question, answer),
    }
}
