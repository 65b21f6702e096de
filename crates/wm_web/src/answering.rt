// What a request is answered: the tests in their order, and then the floor.
ghost use Rattle.std.specs.Prelude.{◌≡◌, false, IfOk, OnErr};
ghost use Rattle.wm_floor.specs.Floor.{IsPassOf, IsSame};
ghost use Rattle.wm_http.specs.declared.answer.Answer.TheVariants.{BadCommand, BadRequest};
ghost use Rattle.wm_http.specs.declared.request.Cut.TheVariants.{Whole};
ghost use Rattle.wm_listing.specs.Said.{fault_text};
ghost use Rattle.wm_run.specs.Parsed.{IsFitParsed};
ghost use Rattle.wm_web.specs.Answered.{AnswersBody, AnswersBytes, AnswersCut, AnswersParsed, AnswersRoute, IsTakenUp, is_down};
ghost use Rattle.wm_web.specs.Bodies.{IsFitBody};

use crate::answered::Answered;
use crate::body::Body;
use crate::calling::call_command;
use crate::gate::Gate;
use crate::lines::body_of;
use crate::listings::read_command;
use std::alloc::Global;
use std::sync::Wait;
use wm_base::{Name, NoMemory};
use wm_clwords::ClFault;
use wm_floor::{Floor, FloorPass};
use wm_http::{Answer, Request, RequestFault, Route, Routes, Said};
use wm_listing::{LineFault, fault_line};
use wm_run::Parsed;
use wm_traits::{Clock, Keeper};

// An answer to a request for which the floor wasn't called.
fn plain(answer: Answer) -> Answered
    ensures answer { result.answer ≡ answer }
    ensures up { result.down ≡ false }
{
    Answered {
        answer,
        called: false,
        down: false,
    }
}

// The answer to a line that is no command.
fn fault_answer(alloc: Global, fault: &LineFault) -> Result<Answer, NoMemory>
    ensures { IfOk result (λ a. a ≡ BadCommand (fault_text fault.now)) }
{
    let line = fault_line(alloc, fault)?;
    Ok(Answer::BadCommand(Said::new(line)))
}

// Answers the one line of a body.
fn answer_parsed<K: Keeper, C: Clock, G: Gate, R: Wait>(
    rt: &R,
    alloc: Global,
    floor: &Floor<K>,
    pass: &mut FloorPass<K>,
    clock: &mut C,
    gate: &G,
    worker: u32,
    user: &Name,
    parsed: Parsed,
) -> Result<Answered, NoMemory>
    requires own { IsPassOf floor.now pass.old }
    requires fit { IsFitParsed parsed }
    ensures own { IsPassOf floor.now pass.new }
    ensures same { IsSame pass.old pass.new }
    ensures answered { IfOk result (λ r. AnswersParsed floor.now.opening user.now parsed pass.old pass.new r.answer) }
    ensures down { IfOk result (λ r. r.down ≡ is_down pass.old pass.new) }
    ensures err { OnErr result (IsTakenUp (AnswersParsed floor.now.opening user.now parsed) pass.old pass.new) }
{
    match parsed {
        Parsed::Fault(fault) => Ok(plain(fault_answer(alloc, &fault)?)),
        Parsed::Read(ask) => read_command(rt, alloc, floor, pass, gate, worker, &ask),
        Parsed::Call(command) => call_command(
            rt, alloc, floor, pass, clock, gate, worker, user, command,
        ),
    }
}

// Answers a body.
fn answer_body<K: Keeper, C: Clock, G: Gate, R: Wait>(
    rt: &R,
    alloc: Global,
    floor: &Floor<K>,
    pass: &mut FloorPass<K>,
    clock: &mut C,
    gate: &G,
    worker: u32,
    user: &Name,
    body: Body,
) -> Result<Answered, NoMemory>
    requires own { IsPassOf floor.now pass.old }
    requires fit { IsFitBody body }
    ensures own { IsPassOf floor.now pass.new }
    ensures same { IsSame pass.old pass.new }
    ensures answered { IfOk result (λ r. AnswersBody floor.now.opening user.now body pass.old pass.new r.answer) }
    ensures down { IfOk result (λ r. r.down ≡ is_down pass.old pass.new) }
    ensures err { OnErr result (IsTakenUp (AnswersBody floor.now.opening user.now body) pass.old pass.new) }
{
    match body {
        Body::Nothing => Ok(plain(fault_answer(alloc, &LineFault::Cl(ClFault::Empty))?)),
        Body::One(parsed) => answer_parsed(
            rt, alloc, floor, pass, clock, gate, worker, user, parsed,
        ),
        Body::Several => Ok(plain(Answer::SeveralCommands)),
    }
}

// Answers the bytes of a body.
fn answer_bytes<K: Keeper, C: Clock, G: Gate, R: Wait>(
    rt: &R,
    alloc: Global,
    floor: &Floor<K>,
    pass: &mut FloorPass<K>,
    clock: &mut C,
    gate: &G,
    worker: u32,
    user: &Name,
    bytes: &[u8],
) -> Result<Answered, NoMemory>
    requires own { IsPassOf floor.now pass.old }
    ensures own { IsPassOf floor.now pass.new }
    ensures same { IsSame pass.old pass.new }
    ensures answered { IfOk result (λ r. AnswersBytes floor.now.opening user.now bytes.now pass.old pass.new r.answer) }
    ensures down { IfOk result (λ r. r.down ≡ is_down pass.old pass.new) }
    ensures err { OnErr result (IsTakenUp (AnswersBytes floor.now.opening user.now bytes.now) pass.old pass.new) }
{
    let body = body_of(alloc, user, bytes)?;
    answer_body(rt, alloc, floor, pass, clock, gate, worker, user, body)
}

// Answers what is asked, with a body.
fn answer_route<K: Keeper, C: Clock, G: Gate, R: Wait>(
    rt: &R,
    alloc: Global,
    floor: &Floor<K>,
    pass: &mut FloorPass<K>,
    clock: &mut C,
    gate: &G,
    worker: u32,
    route: Route,
    bytes: &[u8],
) -> Result<Answered, NoMemory>
    requires own { IsPassOf floor.now pass.old }
    ensures own { IsPassOf floor.now pass.new }
    ensures same { IsSame pass.old pass.new }
    ensures answered { IfOk result (λ r. AnswersRoute floor.now.opening route bytes.now pass.old pass.new r.answer) }
    ensures down { IfOk result (λ r. r.down ≡ is_down pass.old pass.new) }
    ensures err { OnErr result (IsTakenUp (AnswersRoute floor.now.opening route bytes.now) pass.old pass.new) }
{
    match route {
        Route::Command(user) => answer_bytes(
            rt, alloc, floor, pass, clock, gate, worker, &user, bytes,
        ),
        Route::Read(ask) => read_command(rt, alloc, floor, pass, gate, worker, &ask),
        Route::NoRoute => Ok(plain(Answer::NoRoute)),
        Route::WrongMethod(method) => Ok(plain(Answer::WrongMethod(method))),
    }
}

/// Answers a request. An `Err` is want of memory outside of the floor's call.
pub(crate) fn answer_request<K: Keeper, C: Clock, G: Gate, R: Wait>(
    rt: &R,
    alloc: Global,
    routes: &Routes,
    floor: &Floor<K>,
    pass: &mut FloorPass<K>,
    clock: &mut C,
    gate: &G,
    worker: u32,
    request: Request<'_>,
) -> Result<Answered, NoMemory>
    requires own { IsPassOf floor.now pass.old }
    ensures own { IsPassOf floor.now pass.new }
    ensures same { IsSame pass.old pass.new }
    ensures answered { IfOk result (λ r. AnswersCut floor.now.opening (Whole request.entry) pass.old pass.new r.answer) }
    ensures down { IfOk result (λ r. r.down ≡ is_down pass.old pass.new) }
    ensures err { OnErr result (IsTakenUp (AnswersCut floor.now.opening (Whole request.entry)) pass.old pass.new) }
{
    let route = routes.find(request.method, request.target);
    answer_route(
        rt,
        alloc,
        floor,
        pass,
        clock,
        gate,
        worker,
        route,
        request.body,
    )
}

/// Answers bytes that are refused.
pub(crate) fn answer_refused(fault: RequestFault) -> Answered
    ensures answer { result.answer ≡ BadRequest fault }
    ensures up { result.down ≡ false }
{
    plain(Answer::BadRequest(fault))
}
