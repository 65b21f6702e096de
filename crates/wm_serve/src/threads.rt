// A thread of a server: what it makes of its seat, and all of them at once.
ghost use Rattle.std.specs.Prelude.{◌≡◌, ◌<◌, ◌≤◌, All, length};
ghost use Rattle.std.specs.Fork.{AcceptsEach};
ghost use Rattle.std.specs.List.{AllZip};
ghost use Rattle.std.specs.Thread.{IsSend, IsSync};
ghost use Rattle.wm_serve.specs.Parts.{ChangesAll};
ghost use Rattle.wm_serve.specs.Seats.{MonitorRuns, MonitorSits, Runs, Sits, WorkerRuns, WorkerServes, WorkerSits, tellers};

use crate::attendant::attend;
use crate::board::Board;
use crate::seat::{MonitorSeat, Seat, WorkerSeat};
use crate::worker::{Stopped, work};
use std::alloc::Global;
use std::sync::Wait;
use std::thread::{Threads, for_each_mut, join_mut};
use wm_floor::Floor;
use wm_http::Routes;
use wm_listener::Listener;
use wm_traits::{Clock, Keeper, Spawner};
use wm_web::Gate;

// Serves the connections of a worker's desk, and answers why it stopped. A worker has routes of its own, since these can't be
// shared by threads.
fn serve_desk<K: Keeper, L: Listener, P: Spawner, C: Clock, G: Gate, R: Wait>(
    rt: &R,
    alloc: Global,
    floor: &Floor<K>,
    listener: &L,
    gate: &G,
    worker: &mut WorkerSeat<K, L::D, C>,
) -> Stopped
    requires sits { WorkerSits (tellers L.D.hand L.D.had L.D.dries L.D.faults P.asked P.told P.misses P.faults) floor.now worker.old }
    ensures sits { WorkerSits (tellers L.D.hand L.D.had L.D.dries L.D.faults P.asked P.told P.misses P.faults) floor.now worker.new }
    ensures stopped { worker.new.stopped ≡ worker.old.stopped }
    ensures serves { WorkerServes (tellers L.D.hand L.D.had L.D.dries L.D.faults P.asked P.told P.misses P.faults) floor.now worker.old worker.new result }
{
    let Some(pass) = &mut worker.pass else {
        unreachable!()
    };
    let Ok(routes) = Routes::new(alloc) else {
        return Stopped::NoMemory;
    };
    work(
        rt,
        alloc,
        &routes,
        floor,
        pass,
        listener,
        &mut worker.desk,
        &mut worker.clock,
        gate,
    )
}

// A worker's thread. Where it was ended by a fault, the others are told to stop.
fn run_worker<K: Keeper, L: Listener, P: Spawner, C: Clock, G: Gate, R: Wait>(
    rt: &R,
    alloc: Global,
    floor: &Floor<K>,
    listener: &L,
    gate: &G,
    board: &Board,
    worker: &mut WorkerSeat<K, L::D, C>,
)
    requires sits { WorkerSits (tellers L.D.hand L.D.had L.D.dries L.D.faults P.asked P.told P.misses P.faults) floor.now worker.old }
    ensures sits { WorkerSits (tellers L.D.hand L.D.had L.D.dries L.D.faults P.asked P.told P.misses P.faults) floor.now worker.new }
    ensures runs { WorkerRuns (tellers L.D.hand L.D.had L.D.dries L.D.faults P.asked P.told P.misses P.faults) floor.now worker.old worker.new }
{
    let stopped = serve_desk::<K, L, P, C, G, R>(rt, alloc, floor, listener, gate, worker);
    worker.stopped = Some(stopped);
    if matches!(stopped, Stopped::Failed | Stopped::NoMemory) {
        board.stop();
        listener.close();
    }
    board.leave();
}

// A monitor's thread. Where it met a fault, the others are told to stop.
fn run_monitor<K: Keeper, L: Listener, P: Spawner, C: Clock, R: Wait>(
    rt: &R,
    alloc: Global,
    floor: &Floor<K>,
    listener: &L,
    board: &Board,
    monitor: &mut MonitorSeat<K, P, C>,
)
    requires sits { MonitorSits floor.now monitor.old }
    ensures sits { MonitorSits floor.now monitor.new }
    ensures runs { MonitorRuns (tellers L.D.hand L.D.had L.D.dries L.D.faults P.asked P.told P.misses P.faults) floor.now monitor.old monitor.new }
{
    let Some(pass) = &mut monitor.pass else {
        unreachable!()
    };
    monitor.fault = attend(
        rt,
        alloc,
        floor,
        pass,
        &mut monitor.monitor,
        &mut monitor.spawner,
        &mut monitor.clock,
        board,
    );
    if monitor.fault.is_some() {
        board.stop();
        listener.close();
    }
}

// The thread of a seat.
fn run_seat<K: Keeper, L: Listener, P: Spawner, C: Clock, G: Gate, R: Wait>(
    rt: &R,
    alloc: Global,
    floor: &Floor<K>,
    listener: &L,
    gate: &G,
    board: &Board,
    seat: &mut Seat<K, L::D, P, C>,
)
    requires sits { Sits (tellers L.D.hand L.D.had L.D.dries L.D.faults P.asked P.told P.misses P.faults) floor.now seat.old }
    ensures sits { Sits (tellers L.D.hand L.D.had L.D.dries L.D.faults P.asked P.told P.misses P.faults) floor.now seat.new }
    ensures runs { Runs (tellers L.D.hand L.D.had L.D.dries L.D.faults P.asked P.told P.misses P.faults) floor.now seat.old seat.new }
{
    match seat {
        Seat::Worker(worker) => run_worker::<K, L, P, C, G, R>(
            rt, alloc, floor, listener, gate, board, worker,
        ),
        Seat::Closer(_) => {}
        Seat::Monitor(monitor) => run_monitor(rt, alloc, floor, listener, board, monitor),
    }
}

// As `for_each_mut` of std over both parts at once. Where no thread can be had, the first part is done before the other.
fn for_each_of_both<R: Threads + Sync, T: Send, F: Fn(usize, &mut T) + Sync>(
    rt: &R,
    first: &mut [T],
    last: &mut [T],
    f: &F,
)
    requires first { AcceptsEach F.Fn f.now first.old }
    requires last { AcceptsEach F.Fn f.now last.old }
    ensures first { ChangesAll F.Fn f.now first.old first.new }
    ensures last { ChangesAll F.Fn f.now last.old last.new }
{
    let (m, n) = (first.len().max(1), last.len().max(1));
    join_mut(
        rt,
        &mut ||
            requires { IsSync R.row × (IsSend T.row × (IsSync F.row × ((0 < n) × AcceptsEach F.Fn f.now last.now))) }
            ensures { ChangesAll F.Fn f.entry.now last.entry.now last.exit.now }
        { for_each_mut(rt, last, n, f) },
        &mut ||
            requires { IsSync R.row × (IsSend T.row × (IsSync F.row × ((0 < m) × AcceptsEach F.Fn f.now first.now))) }
            ensures { ChangesAll F.Fn f.entry.now first.entry.now first.exit.now }
        { for_each_mut(rt, first, m, f) },
    );
}

/// Runs each seat in a thread of its own until all have stopped. The first of them, so many, are workers'. Where no thread can be
/// had they are run one after another, the workers' before the monitors', which wait for them.
pub(crate) fn run_seats<
    K: Keeper,
    L: Listener,
    P: Spawner,
    C: Clock,
    G: Gate,
    R: Threads + Wait + Sync,
>(
    rt: &R,
    alloc: Global,
    floor: &Floor<K>,
    listener: &L,
    gate: &G,
    seats: &mut [Seat<K, L::D, P, C>],
    workers: usize,
)
where
    K: Send,
    L: Sync,
    L::I: Send + Sync,
    L::O: Send + Sync,
    L::D: Send + Sync,
    P: Send,
    C: Send,
    G: Sync,
    requires workers { workers ≤ length seats.old }
    requires sit { All (Sits (tellers L.D.hand L.D.had L.D.dries L.D.faults P.asked P.told P.misses P.faults) floor.now) seats.old }
    ensures sit { All (Sits (tellers L.D.hand L.D.had L.D.dries L.D.faults P.asked P.told P.misses P.faults) floor.now) seats.new }
    ensures run { AllZip (Runs (tellers L.D.hand L.D.had L.D.dries L.D.faults P.asked P.told P.misses P.faults) floor.now) seats.old seats.new }
{
    let board = Board::new(workers);
    let (first, last) = seats.split_at_mut(workers);
    for_each_of_both(
        rt,
        first,
        last,
        &|_at: usize, seat: &mut Seat<K, L::D, P, C>|
            requires { Sits (tellers L.D.hand L.D.had L.D.dries L.D.faults P.asked P.told P.misses P.faults) floor.now seat.now }
            ensures { Sits (tellers L.D.hand L.D.had L.D.dries L.D.faults P.asked P.told P.misses P.faults) floor.entry.now seat.exit.now × Runs (tellers L.D.hand L.D.had L.D.dries L.D.faults P.asked P.told P.misses P.faults) floor.entry.now seat.entry.now seat.exit.now }
        { run_seat(rt, alloc, floor, listener, gate, &board, seat) },
    );
}
