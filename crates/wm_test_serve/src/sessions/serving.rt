// One connection over a floor of its own.
ghost use Rattle.std.specs.Prelude.{◌<◌, ◌≤◌};
ghost use Rattle.wm_floor.specs.Floor.{IsPassOf, IsSame};

use super::counting::CountingGate;
use crate::floors::opened;
use anyhow::{Result, bail};
use std::alloc::Global;
use std::sync::Wait;
use wm_base::{Moment, Name};
use wm_floor::{Floor, FloorPass};
use wm_http::Routes;
use wm_outside::{MemClock, MemKeeper, MemSink, MemSource};
use wm_run::{Parsed, parse_line, user_call};
use wm_traits::Source;
use wm_web::{WebEnd, web_session};

/// What the objects of a connection are like.
#[derive(Drop)]
pub struct Plan {
    /// How many entries the floor takes.
    pub limit: u32,
    /// How many bytes a read gives and a write takes at the most.
    pub piece: usize,
    pub short: usize,
    pub fail_apply: Vec<u32>,
    pub fail_read: Vec<u32>,
    pub fail_write: Vec<u32>,
    ghost some: { 1 ≤ limit },
    ghost most: { limit ≤ 1000000 },
    ghost gives: { 0 < piece },
    ghost takes: { 0 < short },
}

/// What was written, how many bytes were read, how the connection ended, and how often each call of the gate came.
#[derive(Drop)]
pub struct Came {
    pub sink: MemSink,
    pub read: usize,
    pub end: WebEnd,
    pub before: u32,
    pub after: u32,
}

/// Calls a command of QSYS.
pub fn call<R: Wait>(
    rt: &R,
    alloc: Global,
    floor: &Floor<MemKeeper>,
    pass: &mut FloorPass<MemKeeper>,
    text: &[u8],
) -> Result<()>
    requires own { IsPassOf floor.now pass.old }
    ensures own { IsPassOf floor.now pass.new }
    ensures same { IsSame pass.old pass.new }
{
    let user = Name::of(b"QSYS");
    let Parsed::Call(command) = parse_line(alloc, &user, text)? else {
        bail!("no command")
    };
    let call = user_call(alloc, &user, command)?;
    match floor.call(rt, alloc, pass, call, Moment::new(1000)) {
        Ok(answered) => {
            drop(answered);
            Ok(())
        }
        Err(fault) => bail!("not called: {fault}"),
    }
}

/// One connection from a source to a sink.
pub fn connect<R: Wait>(
    rt: &R,
    alloc: Global,
    routes: &Routes,
    floor: &Floor<MemKeeper>,
    pass: &mut FloorPass<MemKeeper>,
    source: &mut MemSource,
    sink: &mut MemSink,
    gate: &CountingGate,
) -> WebEnd
    requires own { IsPassOf floor.now pass.old }
    ensures own { IsPassOf floor.now pass.new }
    ensures same { IsSame pass.old pass.new }
{
    let mut clock = MemClock::new(Moment::new(2000), 1);
    web_session(
        rt, alloc, routes, floor, pass, source, sink, &mut clock, gate, 1,
    )
}

// How many bytes a source still has, of at most so many.
fn bytes_left(source: &mut MemSource, most: usize) -> usize {
    let mut piece = [0u8; 4096];
    let mut left = 0usize;
    for _ in 0..=most {
        match source.read(&mut piece) {
            Ok(0) => return left,
            Ok(n) => left = left.saturating_add(n),
            Err(_) => {}
        }
    }
    left
}

/// Serves a connection over these bytes.
pub fn serve<R: Wait>(rt: &R, alloc: Global, plan: Plan, bytes: Vec<u8>) -> Result<Came> {
    let sent = bytes.len();
    let routes = Routes::new(alloc)?;
    let mut source = MemSource::in_pieces(bytes, plan.fail_read, plan.piece);
    let mut sink = MemSink::in_pieces(alloc, plan.fail_write, plan.short);
    let gate = CountingGate::new();
    let (floor, mut zero) = opened(alloc, plan.limit, plan.fail_apply)?;
    let begun = call(rt, alloc, &floor, &mut zero, b"STRSBS QBATCH");
    let end = connect(
        rt,
        alloc,
        &routes,
        &floor,
        &mut zero,
        &mut source,
        &mut sink,
        &gate,
    );
    let closed = floor.close(zero);
    let Ok(closed) = closed else { unreachable!() };
    drop(closed);
    begun?;
    Ok(Came {
        sink,
        read: sent.saturating_sub(bytes_left(&mut source, sent)),
        end,
        before: gate.before_count(),
        after: gate.after_count(),
    })
}
