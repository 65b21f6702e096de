// Reading commands: what they are answered.
ghost use Rattle.std.specs.Prelude.{◌≡◌, IfOk, OnErr, false};
ghost use Rattle.wm_floor.specs.Floor.{IsPassOf, IsSame};
ghost use Rattle.wm_run.specs.Reads.{is_log};
ghost use Rattle.wm_web.specs.Answered.{AnswersRead, IsTakenUp, is_down, shown_answer};

use crate::answered::Answered;
use crate::gate::Gate;
use std::alloc::Global;
use std::sync::Wait;
use wm_base::NoMemory;
use wm_floor::{Floor, FloorPass};
use wm_http::{Answer, Listed, Said};
use wm_law::Ask;
use wm_listing::listing;
use wm_run::log_bytes;
use wm_traits::Keeper;
use wm_views::Shown;

// What is shown: the listing, or the line of a refusal. An `Err` is want of memory.
fn shown_answer(alloc: Global, shown: &Shown) -> Result<Answer, NoMemory>
    ensures { IfOk result (λ a. a ≡ shown_answer shown.now) }
{
    match shown {
        Shown::No(refusal) => {
            let line = format!(in alloc; "NO {refusal}")?;
            Ok(Answer::RefusedRead(Said::new(line)))
        }
        _ => Ok(Answer::Listing(Listed::new(listing(alloc, shown)?))),
    }
}

// An answer to a request for which the floor was called.
fn called(answer: Answer) -> Answered
    ensures answer { result.answer ≡ answer }
    ensures up { result.down ≡ false }
{
    Answered {
        answer,
        called: true,
        down: false,
    }
}

// DSPLOG. An `Err` is want of memory outside of the look at the history.
fn list_log<K: Keeper, R: Wait>(
    rt: &R,
    alloc: Global,
    floor: &Floor<K>,
    pass: &mut FloorPass<K>,
) -> Result<Answer, NoMemory>
    requires own { IsPassOf floor.now pass.old }
    ensures own { IsPassOf floor.now pass.new }
    ensures same { IsSame pass.old pass.new }
    ensures answered { IfOk result (AnswersRead floor.now.opening Ask.Log pass.old pass.new) }
    ensures err { OnErr result (IsTakenUp (AnswersRead floor.now.opening Ask.Log) pass.old pass.new) }
{
    match floor.log(rt, alloc, pass) {
        Ok(log) => {
            let bytes = log_bytes(alloc, &log)?;
            Ok(Answer::Listing(Listed::new(bytes)))
        }
        Err(_) => Ok(Answer::NoMemory),
    }
}

// A reading command that shows the state.
fn list_state<K: Keeper, R: Wait>(
    rt: &R,
    alloc: Global,
    floor: &Floor<K>,
    pass: &mut FloorPass<K>,
    ask: &Ask,
) -> Result<Answer, NoMemory>
    requires own { IsPassOf floor.now pass.old }
    requires state { is_log ask.now ≡ false }
    ensures own { IsPassOf floor.now pass.new }
    ensures same { IsSame pass.old pass.new }
    ensures answered { IfOk result (AnswersRead floor.now.opening ask.now pass.old pass.new) }
    ensures err { OnErr result (IsTakenUp (AnswersRead floor.now.opening ask.now) pass.old pass.new) }
{
    match floor.read(rt, alloc, pass, ask) {
        Ok(view) => {
            let answer = shown_answer(alloc, &view.shown)?;
            Ok(answer)
        }
        Err(_) => Ok(Answer::NoMemory),
    }
}

// What a reading command is answered.
fn list<K: Keeper, R: Wait>(
    rt: &R,
    alloc: Global,
    floor: &Floor<K>,
    pass: &mut FloorPass<K>,
    ask: &Ask,
) -> Result<Answer, NoMemory>
    requires own { IsPassOf floor.now pass.old }
    ensures own { IsPassOf floor.now pass.new }
    ensures same { IsSame pass.old pass.new }
    ensures answered { IfOk result (AnswersRead floor.now.opening ask.now pass.old pass.new) }
    ensures err { OnErr result (IsTakenUp (AnswersRead floor.now.opening ask.now) pass.old pass.new) }
{
    match ask {
        Ask::Log => list_log(rt, alloc, floor, pass),
        _ => list_state(rt, alloc, floor, pass, ask),
    }
}

/// Tells what a reading command is answered. An `Err` is want of memory outside of the look at the floor.
pub(crate) fn read_command<K: Keeper, G: Gate, R: Wait>(
    rt: &R,
    alloc: Global,
    floor: &Floor<K>,
    pass: &mut FloorPass<K>,
    gate: &G,
    worker: u32,
    ask: &Ask,
) -> Result<Answered, NoMemory>
    requires own { IsPassOf floor.now pass.old }
    ensures own { IsPassOf floor.now pass.new }
    ensures same { IsSame pass.old pass.new }
    ensures answered { IfOk result (λ r. AnswersRead floor.now.opening ask.now pass.old pass.new r.answer) }
    ensures down { IfOk result (λ r. r.down ≡ is_down pass.old pass.new) }
    ensures err { OnErr result (IsTakenUp (AnswersRead floor.now.opening ask.now) pass.old pass.new) }
{
    gate.before(worker);
    let answer = list(rt, alloc, floor, pass, ask)?;
    Ok(called(answer))
}
