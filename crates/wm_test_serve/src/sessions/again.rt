// Several connections over one floor.
ghost use Rattle.wm_floor.specs.Floor.{IsPassOf, IsSame};

use super::counting::CountingGate;
use super::serving::{call, connect};
use crate::floors::opened;
use anyhow::Result;
use std::alloc::Global;
use std::sync::Wait;
use wm_floor::{Floor, FloorPass};
use wm_http::Routes;
use wm_outside::{MemKeeper, MemSink, MemSource};

// One connection of these bytes, whose answers are dropped.
fn connect_once<R: Wait>(
    rt: &R,
    alloc: Global,
    routes: &Routes,
    floor: &Floor<MemKeeper>,
    pass: &mut FloorPass<MemKeeper>,
    gate: &CountingGate,
    bytes: &[u8],
) -> Result<()>
    requires own { IsPassOf floor.now pass.old }
    ensures own { IsPassOf floor.now pass.new }
    ensures same { IsSame pass.old pass.new }
{
    let mut sent = Vec::new(alloc);
    sent.extend_from_slice(bytes)?;
    let mut source = MemSource::new(sent, Vec::new(alloc));
    let mut sink = MemSink::new(alloc, Vec::new(alloc));
    connect(rt, alloc, routes, floor, pass, &mut source, &mut sink, gate);
    Ok(())
}

// So many connections of these bytes, one behind another.
fn connect_all<R: Wait>(
    rt: &R,
    alloc: Global,
    routes: &Routes,
    floor: &Floor<MemKeeper>,
    pass: &mut FloorPass<MemKeeper>,
    gate: &CountingGate,
    count: u32,
    bytes: &[u8],
) -> Result<()>
    requires own { IsPassOf floor.now pass.old }
    ensures own { IsPassOf floor.now pass.new }
    ensures same { IsSame pass.old pass.new }
{
    'connections: for _ in 0..count {
        connect_once(rt, alloc, routes, floor, pass, gate, bytes)?;
    }
    Ok(())
}

/// Serves so many connections of these bytes over one floor, and tells how often `after` of their gate came.
pub fn serve_again<R: Wait>(rt: &R, alloc: Global, count: u32, bytes: &[u8]) -> Result<u32> {
    let routes = Routes::new(alloc)?;
    let gate = CountingGate::new();
    let (floor, mut zero) = opened(alloc, 1_000_000, Vec::new(alloc))?;
    let begun = call(rt, alloc, &floor, &mut zero, b"STRSBS QBATCH");
    let served = connect_all(rt, alloc, &routes, &floor, &mut zero, &gate, count, bytes);
    let closed = floor.close(zero);
    let Ok(closed) = closed else { unreachable!() };
    drop(closed);
    begun?;
    served?;
    Ok(gate.after_count())
}
