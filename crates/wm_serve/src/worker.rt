// A worker: the connections that come to one desk, one after another.
ghost use Rattle.std.specs.Prelude.{◌≡◌, ◌≤◌, None, Some};
ghost use Rattle.wm_traits.specs.Cause.{raised};
ghost use Rattle.wm_traits.specs.Told.{IsEmpty};
ghost use Rattle.wm_floor.specs.Floor.{IsPassOf, IsSame};
ghost use Rattle.wm_serve.specs.Connections.{DeskServes, MakesCommands};

use std::alloc::Global;
use std::sync::Wait;
use wm_floor::{Floor, FloorPass};
use wm_http::Routes;
use wm_law::Power;
use wm_listener::{Desk, Listener, Next};
use wm_traits::{Clock, Keeper, Sink, Source};
use wm_web::{Gate, web_session};

/// Why a worker has stopped.
#[derive(Clone, Copy)]
pub enum Stopped {
    /// No connection can come any more.
    Dry,
    /// The listener was closed.
    Closed,
    /// A look for a connection failed.
    Failed,
    /// There was no memory to begin with.
    NoMemory,
}

// Serves one connection and gives it back. Once the power isn't on any more, the listener is closed.
fn serve_connection<K: Keeper, L: Listener, C: Clock, G: Gate, R: Wait>(
    rt: &R,
    alloc: Global,
    routes: &Routes,
    floor: &Floor<K>,
    pass: &mut FloorPass<K>,
    listener: &L,
    desk: &mut L::D,
    clock: &mut C,
    gate: &G,
    input: L::I,
    output: L::O,
)
    requires own { IsPassOf floor.now pass.old }
    requires hand { L.D.hand desk.old ≡ Some (L.I.left input) }
    requires reads { L.I.faults input ≡ 0 }
    requires writes { L.O.faults output ≡ 0 }
    requires unwritten { IsEmpty (L.O.written output) }
    ensures own { IsPassOf floor.now pass.new }
    ensures same { IsSame pass.old pass.new }
    ensures free { L.D.hand desk.new ≡ None }
    ensures served { DeskServes floor.now.opening (L.D.had desk.old) (L.D.had desk.new) pass.old pass.new }
    ensures commands { MakesCommands pass.old pass.new }
    ensures dries { L.D.dries desk.new ≡ L.D.dries desk.old }
    ensures faults { L.D.faults desk.new ≡ L.D.faults desk.old }
{
    let (mut input, mut output) = (input, output);
    let worker = pass.number();
    let _end = web_session(
        rt,
        alloc,
        routes,
        floor,
        pass,
        &mut input,
        &mut output,
        clock,
        gate,
        worker,
    );
    listener.done(desk, input, output);
    let waiting = floor.pending(rt, pass, worker);
    if !matches!(waiting.pending.power, Power::On) {
        listener.close();
    }
}

/// Serves connections until none can come any more, the listener is closed, or a look for one fails.
pub fn work<K: Keeper, L: Listener, C: Clock, G: Gate, R: Wait>(
    rt: &R,
    alloc: Global,
    routes: &Routes,
    floor: &Floor<K>,
    pass: &mut FloorPass<K>,
    listener: &L,
    desk: &mut L::D,
    clock: &mut C,
    gate: &G,
) -> Stopped
    requires own { IsPassOf floor.now pass.old }
    requires free { L.D.hand desk.old ≡ None }
    ensures own { IsPassOf floor.now pass.new }
    ensures same { IsSame pass.old pass.new }
    ensures free { L.D.hand desk.new ≡ None }
    ensures served { DeskServes floor.now.opening (L.D.had desk.old) (L.D.had desk.new) pass.old pass.new }
    ensures commands { MakesCommands pass.old pass.new }
    ensures dry { result ≡ Stopped.Dry → L.D.dries desk.new ≡ raised (L.D.dries desk.old) }
    ensures not_dry { (result ≡ Stopped.Dry → ⊥) → L.D.dries desk.new ≡ L.D.dries desk.old }
    ensures failed { result ≡ Stopped.Failed → raised (L.D.faults desk.old) ≤ L.D.faults desk.new }
    ensures not_failed { (result ≡ Stopped.Failed → ⊥) → L.D.faults desk.new ≡ L.D.faults desk.old }
{
    'connections: for _ in rt.forever() {
        match listener.next(rt, desk) {
            Ok(Next::Here(input, output)) => serve_connection(
                rt, alloc, routes, floor, pass, listener, desk, clock, gate, input, output,
            ),
            Ok(Next::Dry) => return Stopped::Dry,
            Ok(Next::Closed) => return Stopped::Closed,
            Err(_) => return Stopped::Failed,
        }
    }
    unreachable!()
}
