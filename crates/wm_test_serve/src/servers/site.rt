// A floor with the passes of a worker and of a monitor.
ghost use Rattle.wm_floor.specs.Floor.{IsPassOf, IsSame};

use super::told::{tell_log, tell_met, tell_stopped, tell_written};
use super::unused::Unused;
use crate::floors::opened;
use anyhow::{Result, bail};
use std::alloc::Global;
use std::sync::Wait;
use wm_base::Moment;
use wm_desc::qbatch;
use wm_floor::{Floor, FloorPass, Monitor};
use wm_http::Routes;
use wm_listener::{MemDesk, MemListener};
use wm_outside::{MemClock, MemKeeper, MemSpawner};
use wm_run::start_call;
use wm_serve::{Board, attend, work};
use wm_web::FreeGate;

type TestFloor = Floor<MemKeeper>;

type TestPass = FloorPass<MemKeeper>;

/// What the peers of the connections send.
static REQUESTS: [&[u8]; 2] = [
    b"POST /users/ann/commands HTTP/1.1\r\nContent-Length: 33\r\n\r\nSBMJOB CMD(CALL PGM(ECHO)) JOB(A)",
    b"GET /nowhere HTTP/1.1\r\n\r\n",
];

// Starts the controlling subsystem.
fn begin<R: Wait>(rt: &R, alloc: Global, floor: &TestFloor, zero: &mut TestPass) -> Result<()>
    requires own { IsPassOf floor.now zero.old }
    ensures own { IsPassOf floor.now zero.new }
    ensures same { IsSame zero.old zero.new }
{
    let call = start_call(alloc, &qbatch())?;
    match floor.call(rt, alloc, zero, call, Moment::new(1000)) {
        Ok(answered) => {
            drop(answered);
            Ok(())
        }
        Err(fault) => bail!("not called: {fault}"),
    }
}

// A listener with the connections.
fn listener(alloc: Global) -> Result<MemListener> {
    let mut unused = Unused::new(alloc);
    for bytes in &REQUESTS {
        unused.add(alloc, bytes)?;
    }
    Ok(unused.listener(alloc))
}

// A worker's thread.
fn play_worker<R: Wait>(
    rt: &R,
    alloc: Global,
    floor: &TestFloor,
    pass: &mut TestPass,
    told: &mut String,
) -> Result<()>
    requires own { IsPassOf floor.now pass.old }
    ensures own { IsPassOf floor.now pass.new }
    ensures same { IsSame pass.old pass.new }
{
    let routes = Routes::new(alloc)?;
    let listener = listener(alloc)?;
    let mut desk = MemDesk::new(alloc);
    let mut clock = MemClock::new(Moment::new(2000), 0);
    let stopped = work(
        rt, alloc, &routes, floor, pass, &listener, &mut desk, &mut clock, &FreeGate,
    );
    tell_stopped(stopped, told)?;
    tell_written(desk.had(), told)
}

// A monitor's thread, once the worker has stopped.
fn play_monitor<R: Wait>(
    rt: &R,
    alloc: Global,
    floor: &TestFloor,
    pass: &mut TestPass,
    told: &mut String,
) -> Result<()>
    requires own { IsPassOf floor.now pass.old }
    ensures own { IsPassOf floor.now pass.new }
    ensures same { IsSame pass.old pass.new }
{
    let board = Board::new(1);
    board.leave();
    let none = || Vec::new(alloc);
    let mut spawner = MemSpawner::new(alloc, 0, none(), none(), none());
    let mut clock = MemClock::new(Moment::new(3000), 0);
    let mut monitor = Monitor::new();
    let met = attend(
        rt,
        alloc,
        floor,
        pass,
        &mut monitor,
        &mut spawner,
        &mut clock,
        &board,
    );
    tell_met(met, told)
}

// The threads, one after another, and then the history.
fn play_all<R: Wait>(
    rt: &R,
    alloc: Global,
    floor: &TestFloor,
    zero: &mut TestPass,
    worker: &mut TestPass,
    monitor: &mut TestPass,
) -> Result<String>
    requires zero { IsPassOf floor.now zero.old }
    requires worker { IsPassOf floor.now worker.old }
    requires monitor { IsPassOf floor.now monitor.old }
    ensures zero { IsPassOf floor.now zero.new }
    ensures worker { IsPassOf floor.now worker.new }
    ensures monitor { IsPassOf floor.now monitor.new }
    ensures same { IsSame zero.old zero.new }
{
    let mut told = String::new(alloc);
    begin(rt, alloc, floor, zero)?;
    play_worker(rt, alloc, floor, worker, &mut told)?;
    play_monitor(rt, alloc, floor, monitor, &mut told)?;
    tell_log(alloc, &floor.log(rt, alloc, zero)?, &mut told)?;
    Ok(told)
}

/// What came of a worker and of a monitor.
pub fn play<R: Wait>(rt: &R, alloc: Global) -> Result<String> {
    let (floor, mut zero) = opened(alloc, 1_000_000, Vec::new(alloc))?;
    let Ok(mut worker) = floor.split(&mut zero) else {
        unreachable!()
    };
    let Ok(mut monitor) = floor.split(&mut zero) else {
        unreachable!()
    };
    let told = play_all(rt, alloc, &floor, &mut zero, &mut worker, &mut monitor);
    floor.join(&mut zero, worker);
    floor.join(&mut zero, monitor);
    let closed = floor.close(zero);
    let Ok(closed) = closed else { unreachable!() };
    drop(closed);
    told
}
