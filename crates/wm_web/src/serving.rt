// The next request: it is read, and answered.
ghost use Rattle.std.specs.Prelude.{◌≡◌, ◌≤◌, false, Err, IfOk, IfErr, IsErrOf, OnErr, length};
ghost use Rattle.wm_floor.specs.Floor.{IsPassOf, IsSame};
ghost use Rattle.wm_http.specs.Cutting.{IsCut};
ghost use Rattle.wm_http.specs.declared.answer.Answer.TheVariants.{BadRequest};
ghost use Rattle.wm_http.specs.declared.request.Cut.TheVariants.{Whole};
ghost use Rattle.wm_traits.specs.Cause.{raised};
ghost use Rattle.wm_web.specs.Answered.{AnswersCut, IsTakenUp};
ghost use Rattle.wm_web.specs.Ends.{IsUnserved};
ghost use Rattle.wm_web.specs.Reading.{ReadsOn, ended};
ghost use Rattle.wm_web.specs.Serving.{IsServed, IsServedBy};

use crate::answering::{answer_refused, answer_request};
use crate::end::WebEnd;
use crate::gate::Gate;
use crate::served::Served;
use crate::unread::{ROOM, Unread};
use std::alloc::Global;
use std::sync::Wait;
use wm_floor::{Floor, FloorPass};
use wm_http::{Cut, Request, RequestFault, Routes, cut};
use wm_traits::{Clock, Keeper, Source};

// How many reads there are at the most behind an answer: each but the last gives a byte.
const MOST_READS: usize = ROOM + 1;

// Serves a request.
#[tactic(auto, using(crate::proofs::Cuts::len_within))]
fn serve_request<K: Keeper, C: Clock, G: Gate, R: Wait>(
    rt: &R,
    alloc: Global,
    routes: &Routes,
    floor: &Floor<K>,
    pass: &mut FloorPass<K>,
    clock: &mut C,
    gate: &G,
    worker: u32,
    unread: &Unread,
    request: Request<'_>,
) -> Result<Served, WebEnd>
    requires own { IsPassOf floor.now pass.old }
    requires is { IsCut unread.now (Whole request) }
    ensures own { IsPassOf floor.now pass.new }
    ensures same { IsSame pass.old pass.new }
    ensures served { IfOk result (IsServedBy floor.now.opening (Whole request.entry) unread.now pass.old pass.new) }
    ensures err { OnErr result (IsTakenUp (AnswersCut floor.now.opening (Whole request.entry)) pass.old pass.new) }
    ensures only { OnErr result (result ≡ Err WebEnd.NoMemory) }
{
    match answer_request(rt, alloc, routes, floor, pass, clock, gate, worker, request) {
        Ok(answered) => Ok(Served {
            answered,
            asks_close: request.closes,
            len: request.len,
        }),
        Err(_) => Err(WebEnd::NoMemory),
    }
}

// Serves bytes that are refused.
fn serve_refused(fault: RequestFault) -> Served
    ensures answer { result.answered.answer ≡ BadRequest fault }
    ensures up { result.answered.down ≡ false }
    ensures asks { result.asks_close ≡ false }
    ensures len { result.len ≡ 0 }
{
    Served {
        answered: answer_refused(fault),
        asks_close: false,
        len: 0,
    }
}

// How a connection ends with its input.
fn ended(unread: &Unread) -> WebEnd
    ensures { result ≡ ended unread.now }
{
    if unread.as_slice().is_empty() {
        WebEnd::Done
    } else {
        WebEnd::CutShort
    }
}

/// Reads on until a request is whole or is refused, and answers it. An `Err` says why no request is answered.
#[tactic(auto, using(crate::proofs::Cuts::read_on_room, crate::proofs::Readings::reads_none, crate::proofs::Readings::reads_then))]
pub(crate) fn serve_next<K: Keeper, I: Source, C: Clock, G: Gate, R: Wait>(
    rt: &R,
    alloc: Global,
    routes: &Routes,
    floor: &Floor<K>,
    pass: &mut FloorPass<K>,
    source: &mut I,
    clock: &mut C,
    gate: &G,
    worker: u32,
    unread: &mut Unread,
    piece: &mut [u8],
) -> Result<Served, WebEnd>
    requires own { IsPassOf floor.now pass.old }
    requires piece { length piece.old ≡ 16384 }
    ensures own { IsPassOf floor.now pass.new }
    ensures same { IsSame pass.old pass.new }
    ensures reads { ReadsOn (I.left source.old) (I.left source.new) unread.old unread.new }
    ensures most { length unread.new ≤ 16384 }
    ensures served { IfOk result (IsServed floor.now.opening unread.new pass.old pass.new) }
    ensures unserved { IfErr result (IsUnserved floor.now.opening (I.left source.new) unread.new pass.old pass.new) }
    ensures faults { I.faults source.old ≤ I.faults source.new }
    ensures read_fault { IsErrOf result WebEnd.ReadFault → raised (I.faults source.old) ≤ I.faults source.new }
{
    'reads: for _ in 0..MOST_READS {
        let most = match cut(unread.as_slice()) {
            Cut::ReadOn(most) => most,
            Cut::Refused(fault) => return Ok(serve_refused(fault)),
            Cut::Whole(request) => {
                return serve_request(
                    rt, alloc, routes, floor, pass, clock, gate, worker, unread, request,
                );
            }
        };
        match unread.read_on(source, piece, most) {
            Ok(0) => return Err(ended(unread)),
            Ok(_) => {}
            Err(_) => return Err(WebEnd::ReadFault),
        }
    }
    // There is no room for so many bytes.
    let _unread = unread.as_slice();
    unreachable!()
}
