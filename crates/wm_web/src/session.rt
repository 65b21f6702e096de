// A connection.
ghost use Rattle.std.specs.Prelude.{◌≡◌, ◌≤◌, [], Some, OnOk, IfErr, IsErrOf, length};
ghost use Rattle.wm_floor.specs.Floor.{IsPassOf, IsSame};
ghost use Rattle.wm_http.specs.Answers.{response_bytes};
ghost use Rattle.wm_traits.specs.Cause.{raised};
ghost use Rattle.wm_traits.specs.Told.{Grows};
ghost use Rattle.wm_web.specs.Ends.{end_of};
ghost use Rattle.wm_web.specs.Serving.{IsUnwritten, ServesNext, TakesSession};
ghost use Rattle.wm_web.specs.Session.{asks_end};

use crate::end::WebEnd;
use crate::gate::Gate;
use crate::serving::serve_next;
use crate::unread::{Unread, new_piece};
use std::alloc::Global;
use std::sync::Wait;
use wm_floor::{Floor, FloorPass};
use wm_http::{Answer, Routes, response};
use wm_run::write_all;
use wm_traits::{Clock, Keeper, Sink, Source};

/// How many requests a connection answers at the most.
const BUDGET: u32 = 10_000;

// Writes the response of an answer.
fn respond<O: Sink>(
    alloc: Global,
    sink: &mut O,
    answer: &Answer,
    closes: bool,
) -> Result<(), WebEnd>
    ensures ok { OnOk result (Grows (O.written sink.old) (O.written sink.new) (response_bytes answer.now closes)) }
    ensures err { IfErr result (IsUnwritten (response_bytes answer.now closes) (O.written sink.old) (O.written sink.new)) }
    ensures faults { O.faults sink.old ≤ O.faults sink.new }
    ensures write_fault { IsErrOf result WebEnd.WriteFault → raised (O.faults sink.old) ≤ O.faults sink.new }
{
    let Ok(bytes) = response(alloc, answer, closes) else {
        return Err(WebEnd::NoMemory);
    };
    match write_all(sink, &bytes) {
        Ok(()) => Ok(()),
        Err(_) => Err(WebEnd::WriteFault),
    }
}

// Whether a connection is asked to close behind so many answers.
fn asks_end(asked: bool, before: u32, down: bool) -> bool
    ensures { result ≡ asks_end asked before down }
{
    asked || before == BUDGET - 1 || down
}

// How a connection ends behind an answer that closes it.
fn end_of(down: bool, before: u32) -> WebEnd
    ensures { result ≡ end_of down before }
{
    if down {
        WebEnd::PowerDown
    } else if before == BUDGET - 1 {
        WebEnd::Budget
    } else {
        WebEnd::Done
    }
}

// Serves one request behind so many, and tells how the connection ends, if it does.
fn serve_one<K: Keeper, I: Source, O: Sink, C: Clock, G: Gate, R: Wait>(
    rt: &R,
    alloc: Global,
    routes: &Routes,
    floor: &Floor<K>,
    pass: &mut FloorPass<K>,
    source: &mut I,
    sink: &mut O,
    clock: &mut C,
    gate: &G,
    worker: u32,
    unread: &mut Unread,
    piece: &mut [u8],
    before: u32,
) -> Option<WebEnd>
    requires own { IsPassOf floor.now pass.old }
    requires piece { length piece.old ≡ 16384 }
    ensures own { IsPassOf floor.now pass.new }
    ensures same { IsSame pass.old pass.new }
    ensures serves { ServesNext floor.now.opening result before (I.left source.old) (I.left source.new) unread.old unread.new pass.old pass.new (O.written sink.old) (O.written sink.new) }
    ensures read { I.faults source.old ≤ I.faults source.new }
    ensures written { O.faults sink.old ≤ O.faults sink.new }
    ensures read_fault { result ≡ Some WebEnd.ReadFault → raised (I.faults source.old) ≤ I.faults source.new }
    ensures write_fault { result ≡ Some WebEnd.WriteFault → raised (O.faults sink.old) ≤ O.faults sink.new }
{
    let served = match serve_next(
        rt, alloc, routes, floor, pass, source, clock, gate, worker, unread, piece,
    ) {
        Ok(served) => served,
        Err(end) => return Some(end),
    };
    let last = asks_end(served.asks_close, before, served.answered.down);
    if let Err(end) = respond(alloc, sink, &served.answered.answer, last) {
        return Some(end);
    }
    if served.answered.called {
        gate.after(worker);
    }
    unread.drop_front(served.len);
    if served.answered.answer.closes_after(last) {
        Some(end_of(served.answered.down, before))
    } else {
        None
    }
}

// Serves the requests of a connection.
fn serve_all<K: Keeper, I: Source, O: Sink, C: Clock, G: Gate, R: Wait>(
    rt: &R,
    alloc: Global,
    routes: &Routes,
    floor: &Floor<K>,
    pass: &mut FloorPass<K>,
    source: &mut I,
    sink: &mut O,
    clock: &mut C,
    gate: &G,
    worker: u32,
    unread: &mut Unread,
    piece: &mut [u8],
) -> WebEnd
    requires own { IsPassOf floor.now pass.old }
    requires piece { length piece.old ≡ 16384 }
    requires none { unread.old ≡ [] }
    ensures own { IsPassOf floor.now pass.new }
    ensures same { IsSame pass.old pass.new }
    ensures session { TakesSession floor.now.opening result (I.left source.old) (I.left source.new) pass.old pass.new (O.written sink.old) (O.written sink.new) }
    ensures read { I.faults source.old ≤ I.faults source.new }
    ensures written { O.faults sink.old ≤ O.faults sink.new }
    ensures read_fault { result ≡ WebEnd.ReadFault → raised (I.faults source.old) ≤ I.faults source.new }
    ensures write_fault { result ≡ WebEnd.WriteFault → raised (O.faults sink.old) ≤ O.faults sink.new }
{
    'requests: for before in 0..BUDGET {
        let came = serve_one(
            rt, alloc, routes, floor, pass, source, sink, clock, gate, worker, unread, piece,
            before,
        );
        if let Some(end) = came {
            return end;
        }
    }
    unreachable!()
}

/// Serves one connection over the shared floor: it reads requests in order, answers each, and ends as it answers. `before` of
/// the gate comes before each call of the floor, `after` once the answer to its request was written. It may wait for other
/// callers of the floor, and for bytes. The form of requests is RFC 9112's; routes, limits and statuses are this project's own.
pub fn web_session<K: Keeper, I: Source, O: Sink, C: Clock, G: Gate, R: Wait>(
    rt: &R,
    alloc: Global,
    routes: &Routes,
    floor: &Floor<K>,
    pass: &mut FloorPass<K>,
    source: &mut I,
    sink: &mut O,
    clock: &mut C,
    gate: &G,
    worker: u32,
) -> WebEnd
    requires own { IsPassOf floor.now pass.old }
    ensures own { IsPassOf floor.now pass.new }
    ensures same { IsSame pass.old pass.new }
    ensures session { TakesSession floor.now.opening result (I.left source.old) (I.left source.new) pass.old pass.new (O.written sink.old) (O.written sink.new) }
    ensures read { I.faults source.old ≤ I.faults source.new }
    ensures written { O.faults sink.old ≤ O.faults sink.new }
    ensures read_fault { result ≡ WebEnd.ReadFault → raised (I.faults source.old) ≤ I.faults source.new }
    ensures write_fault { result ≡ WebEnd.WriteFault → raised (O.faults sink.old) ≤ O.faults sink.new }
{
    let Ok(mut unread) = Unread::new(alloc) else {
        return WebEnd::NoMemory;
    };
    let Ok(mut piece) = new_piece(alloc) else {
        return WebEnd::NoMemory;
    };
    serve_all(
        rt,
        alloc,
        routes,
        floor,
        pass,
        source,
        sink,
        clock,
        gate,
        worker,
        &mut unread,
        &mut piece,
    )
}
