// The call of a user's command.
ghost use Rattle.std.specs.Prelude.{◌≡◌, true, IfOk, OnErr};
ghost use Rattle.wm_floor.specs.Floor.{IsPassOf, IsSame};
ghost use Rattle.wm_law.specs.Fit.{IsCommand};
ghost use Rattle.wm_law.specs.declared.command.Command.{Command};
ghost use Rattle.wm_web.specs.Answered.{AnswersCall, IsTakenUp, entered_answer, failed_answer, is_down};
ghost use Rattle.wm_listing.specs.Said.{mention_of};
ghost use Rattle.wm_web.specs.Told.{Tells};

use crate::answered::Answered;
use crate::gate::Gate;
use std::alloc::Global;
use std::sync::Wait;
use wm_base::{Name, NoMemory};
use wm_floor::{CallFault, Floor, FloorPass};
use wm_http::{Answer, Said};
use wm_law::{Command, Reply};
use wm_listing::{Mention, mention_of, said};
use wm_run::{is_power_down, is_refused, user_call};
use wm_traits::{Clock, Keeper};

// The answer of a command that was called, with its place.
fn entered_answer(
    alloc: Global,
    mention: &Mention,
    place: u32,
    reply: &Reply,
) -> Result<Answer, NoMemory>
    ensures { (c : Command) → mention.now ≡ mention_of c → IfOk result (λ a. a ≡ entered_answer c place reply.now) }
{
    let line = Said::new(said(alloc, mention, reply)?);
    Ok(if is_refused(reply) {
        Answer::Refused(u64::from(place), line)
    } else {
        Answer::Accepted(u64::from(place), line)
    })
}

// What is told of a command that was called, with its place. An `Err` is want of memory.
fn told(alloc: Global, mention: &Mention, place: u32, reply: &Reply) -> Result<Answered, NoMemory>
    ensures { (c : Command) → mention.now ≡ mention_of c → IfOk result (λ r. Tells c place reply.now r.answer r.down) }
{
    let answer = entered_answer(alloc, mention, place, reply)?;
    Ok(Answered {
        answer,
        called: true,
        down: is_power_down(reply),
    })
}

// The answer of a command that made no entry.
fn failed_answer(fault: CallFault) -> Answer
    ensures { result ≡ failed_answer fault }
{
    match fault {
        CallFault::KeeperFault => Answer::KeeperFault,
        CallFault::LogFull(limit) => Answer::LogFull(u64::from(limit)),
        CallFault::NoMemory => Answer::NoMemory,
    }
}

/// Calls a user's command, and tells what it is answered. An `Err` is want of memory outside of the call.
pub(crate) fn call_command<K: Keeper, C: Clock, G: Gate, R: Wait>(
    rt: &R,
    alloc: Global,
    floor: &Floor<K>,
    pass: &mut FloorPass<K>,
    clock: &mut C,
    gate: &G,
    worker: u32,
    user: &Name,
    command: Command,
) -> Result<Answered, NoMemory>
    requires own { IsPassOf floor.now pass.old }
    requires fit { IsCommand command }
    ensures own { IsPassOf floor.now pass.new }
    ensures same { IsSame pass.old pass.new }
    ensures answered { IfOk result (λ r. AnswersCall floor.now.opening user.now command pass.old pass.new r.answer) }
    ensures down { IfOk result (λ r. r.down ≡ is_down pass.old pass.new) }
    ensures err { OnErr result (IsTakenUp (AnswersCall floor.now.opening user.now command) pass.old pass.new) }
{
    let mention = mention_of(&command);
    let call = user_call(alloc, user, command)?;
    gate.before(worker);
    let now = clock.now();
    match floor.call(rt, alloc, pass, call, now) {
        Ok(entered) => {
            let told = told(alloc, &mention, entered.place, &entered.reply)?;
            Ok(told)
        }
        Err(fault) => Ok(Answered {
            answer: failed_answer(fault),
            called: true,
            down: false,
        }),
    }
}
