// A server over an open floor: its first call, its rounds of threads, the end of power, and what is active then.
ghost use Rattle.std.specs.Prelude.{◌≡◌, ◌⊎◌, ◌+◌, ◌<◌, ◌≤◌, [], All, Err, IfErr, IfOk, None, OnErr, OnOk, false, true, fold, length, set};
ghost use Rattle.std.specs.List.{AllZip, list_all};
ghost use Rattle.wm_traits.specs.Cause.{raised};
ghost use Rattle.wm_law.specs.Fit.{IsCall};
ghost use Rattle.wm_law.specs.History.{is_monitor_call};
ghost use Rattle.wm_law.specs.Power.{is_on};
ghost use Rattle.wm_floor.specs.Floor.{HasLooked, IsPassOf, IsSame};
ghost use Rattle.wm_run.specs.Session.{end_call, start_call};
ghost use Rattle.wm_turn.specs.Passed.{StartsWith};
ghost use Rattle.wm_serve.specs.Ending.{IsCallHalt, IsCloserAt, IsRoundsHalt, IsSeatHalt, IsServeHalt, IsTendHalt, WritesReady};
ghost use Rattle.wm_serve.specs.Halts.{least, lesser, seat_halt};
ghost use Rattle.wm_serve.specs.Over.{AreServerCalls, EndsQuietly, Finishes, IsLookOf, KeepsNone, MakesAt, MakesOne, MayMake, WasDown, WereDry};
ghost use Rattle.wm_serve.specs.Seats.{MonitorSits, Runs, Sits, Tends, is_dry, tellers};
ghost use Rattle.wm_serve.specs.declared.halt.Halt.TheVariants.{WriteFault};
ghost use Rattle.wm_serve.specs.declared.seat.Seat.TheVariants.{Closer};

use crate::attendant::{look_and_turn, wait_until};
use crate::halt::{Halt, least, lesser};
use crate::seat::{MonitorSeat, Seat};
use crate::threads::run_seats;
use std::alloc::Global;
use std::sync::Wait;
use std::thread::Threads;
use wm_base::{Moment, QName};
use wm_floor::{Floor, FloorPass, MonitorFault, Waiting};
use wm_law::{Call, Power};
use wm_listener::{Desk, Listener};
use wm_run::{end_call, start_call, write_all};
use wm_traits::{Clock, Keeper, Sink, Spawner};
use wm_web::Gate;

// What is written once connections are taken.
const READY: &[u8] = b"ready\n";

// The moment by the clock of the closer, whose seat is at this place.
fn closer_now<K: Keeper, D, P, C: Clock>(seats: &mut [Seat<K, D, P, C>], at: usize) -> Moment
    requires closer { IsCloserAt at seats.old }
    ensures only { (c : C) × (seats.new ≡ set seats.old at (Closer c)) }
{
    match &mut seats[at] {
        Seat::Closer(clock) => clock.now(),
        Seat::Worker(_) | Seat::Monitor(_) => unreachable!(),
    }
}

// One command of pass 0. It answers the place of its entry.
fn call_once<K: Keeper, R: Wait>(
    rt: &R,
    alloc: Global,
    floor: &Floor<K>,
    zero: &mut FloorPass<K>,
    call: Call,
    now: Moment,
) -> Result<u32, Halt>
    requires own { IsPassOf floor.now zero.old }
    requires fit { IsCall call }
    requires command { is_monitor_call call ≡ false }
    ensures own { IsPassOf floor.now zero.new }
    ensures same { IsSame zero.old zero.new }
    ensures mark { zero.old.mark ≤ zero.new.mark }
    ensures seen { StartsWith zero.new.seen zero.old.seen }
    ensures made { IfOk result (MakesAt call zero.old zero.new) }
    ensures unmade { OnErr result (zero.new.mine ≡ zero.old.mine) }
    ensures cause { IfErr result (IsCallHalt floor.now.opening.limit zero.old zero.new) }
{
    match floor.call(rt, alloc, zero, call, now) {
        Ok(answered) => Ok(answered.place),
        Err(fault) => Err(Halt::from(fault)),
    }
}

// The call that starts the controlling subsystem.
fn begin<K: Keeper, R: Wait>(
    rt: &R,
    alloc: Global,
    floor: &Floor<K>,
    zero: &mut FloorPass<K>,
    ctl: &QName,
    now: Moment,
) -> Result<(), Halt>
    requires own { IsPassOf floor.now zero.old }
    ensures own { IsPassOf floor.now zero.new }
    ensures same { IsSame zero.old zero.new }
    ensures mark { zero.old.mark ≤ zero.new.mark }
    ensures made { OnOk result (MakesOne (start_call ctl.now) zero.old zero.new) }
    ensures unmade { OnErr result (zero.new.mine ≡ zero.old.mine) }
    ensures cause { IfErr result (IsCallHalt floor.now.opening.limit zero.old zero.new) }
{
    let start = start_call(alloc, ctl)?;
    call_once(rt, alloc, floor, zero, start, now)?;
    Ok(())
}

// Says that connections are taken.
fn announce<O: Sink>(out: &mut O) -> Result<(), Halt>
    ensures written { WritesReady result (O.written out.old) (O.written out.new) }
    ensures faults { O.faults out.old ≤ O.faults out.new }
    ensures cause { OnErr result (raised (O.faults out.old) ≤ O.faults out.new) }
    ensures only { OnErr result (result ≡ Err WriteFault) }
{
    match write_all(out, READY) {
        Ok(()) => Ok(()),
        Err(_) => Err(Halt::WriteFault),
    }
}

// The least fault that ended a seat's thread.
fn seats_halt<K: Keeper, D, P, C>(seats: &[Seat<K, D, P, C>]) -> Option<Halt>
    ensures { result ≡ fold (λ least seat. lesser least (seat_halt seat)) None seats.now }
{
    seats
        .iter()
        .fold(None, |least, seat| lesser(least, seat.halt()))
}

// Whether each worker met that no connection can come any more.
fn are_dry<K: Keeper, D, P, C>(seats: &[Seat<K, D, P, C>]) -> bool
    ensures { result ≡ list_all is_dry seats.now }
{
    seats.iter().all(|seat| seat.is_dry())
}

// Runs the seats until no job but prestart jobs is active, and no connection can come any more or the power isn't on. It answers
// the look that said so.
fn serve_rounds<K: Keeper, L: Listener, P: Spawner, C: Clock, G: Gate, R: Threads + Wait + Sync>(
    rt: &R,
    alloc: Global,
    floor: &Floor<K>,
    zero: &mut FloorPass<K>,
    listener: &L,
    gate: &G,
    seats: &mut [Seat<K, L::D, P, C>],
    workers: usize,
) -> Result<Waiting, Halt>
where
    K: Send,
    L: Sync,
    L::I: Send + Sync,
    L::O: Send + Sync,
    L::D: Send + Sync,
    P: Send,
    C: Send,
    G: Sync,
    requires workers { workers ≤ length seats.old }
    requires own { IsPassOf floor.now zero.old }
    requires sit { All (Sits (tellers L.D.hand L.D.had L.D.dries L.D.faults P.asked P.told P.misses P.faults) floor.now) seats.old }
    ensures own { IsPassOf floor.now zero.new }
    ensures same { IsSame zero.old zero.new }
    ensures looked { HasLooked zero.old zero.new }
    ensures sit { All (Sits (tellers L.D.hand L.D.had L.D.dries L.D.faults P.asked P.told P.misses P.faults) floor.now) seats.new }
    ensures run { AllZip (Runs (tellers L.D.hand L.D.had L.D.dries L.D.faults P.asked P.told P.misses P.faults) floor.now) seats.old seats.new }
    ensures last { IfOk result (IsLookOf floor.now zero.new) }
    ensures quiet { IfOk result (λ last. last.pending.busy ≡ 0) }
    ensures over { IfOk result (λ last. (list_all is_dry seats.new ≡ true) ⊎ (is_on last.pending.power ≡ false)) }
    ensures cause { IfErr result (IsSeatHalt seats.new) }
{
    'rounds: for _ in rt.forever() {
        run_seats(rt, alloc, floor, listener, gate, seats, workers);
        if let Some(halt) = seats_halt(seats) {
            return Err(halt);
        }
        let last = floor.pending(rt, zero, 0);
        if last.pending.busy == 0 && (are_dry(seats) || !matches!(last.pending.power, Power::On)) {
            return Ok(last);
        }
    }
    unreachable!()
}

// The call that puts the power down. It answers the place of its entry.
fn put_down<K: Keeper, R: Wait>(
    rt: &R,
    alloc: Global,
    floor: &Floor<K>,
    zero: &mut FloorPass<K>,
    now: Moment,
) -> Result<u32, Halt>
    requires own { IsPassOf floor.now zero.old }
    ensures own { IsPassOf floor.now zero.new }
    ensures same { IsSame zero.old zero.new }
    ensures mark { zero.old.mark ≤ zero.new.mark }
    ensures seen { StartsWith zero.new.seen zero.old.seen }
    ensures made { IfOk result (MakesAt end_call zero.old zero.new) }
    ensures unmade { OnErr result (zero.new.mine ≡ zero.old.mine) }
    ensures cause { IfErr result (IsCallHalt floor.now.opening.limit zero.old zero.new) }
{
    let end = end_call(alloc)?;
    let place = call_once(rt, alloc, floor, zero, end, now)?;
    Ok(place)
}

// Behind rounds that a fault ended: the call that puts the power down, unless it is down. It answers the fault with the lesser
// status.
fn stop<K: Keeper, R: Wait>(
    rt: &R,
    alloc: Global,
    floor: &Floor<K>,
    zero: &mut FloorPass<K>,
    now: Moment,
    halt: Halt,
) -> Halt
    requires own { IsPassOf floor.now zero.old }
    ensures own { IsPassOf floor.now zero.new }
    ensures same { IsSame zero.old zero.new }
    ensures mark { zero.old.mark ≤ zero.new.mark }
    ensures made { MayMake end_call zero.old zero.new }
    ensures cause { (result ≡ halt) ⊎ IsCallHalt floor.now.opening.limit zero.old zero.new result }
{
    if !matches!(floor.pending(rt, zero, 0).pending.power, Power::On) {
        return halt;
    }
    match put_down(rt, alloc, floor, zero, now) {
        Ok(_) => halt,
        Err(other) => least(halt, other),
    }
}

// Waits until the one number is the next behind the other: it is, since no pass but this one is in use.
fn await_next<R: Wait>(rt: &R, place: u32, at: u32)
    ensures { place ≡ at + 1 }
{
    'waits: for _ in rt.forever() {
        if place as u64 == at as u64 + 1 {
            return;
        }
    }
    unreachable!()
}

// Behind rounds that are over: the call that puts the power down, unless it is down. Its entry stands next behind what was looked
// at last, so that it finds no job active but prestart jobs.
fn power_down<K: Keeper, R: Wait>(
    rt: &R,
    alloc: Global,
    floor: &Floor<K>,
    zero: &mut FloorPass<K>,
    now: Moment,
    last: Waiting,
) -> Result<(), Halt>
    requires own { IsPassOf floor.now zero.old }
    requires number { zero.old.number ≡ 0 }
    requires last { IsLookOf floor.now zero.old last }
    requires quiet { last.pending.busy ≡ 0 }
    ensures own { IsPassOf floor.now zero.new }
    ensures same { IsSame zero.old zero.new }
    ensures mark { zero.old.mark ≤ zero.new.mark }
    ensures seen { StartsWith zero.new.seen zero.old.seen }
    ensures made { MayMake end_call zero.old zero.new }
    ensures quiet { OnOk result ((zero.new.mine ≡ zero.old.mine) ⊎ EndsQuietly floor.now.opening.state zero.new.seen) }
    ensures cause { IfErr result (IsCallHalt floor.now.opening.limit zero.old zero.new) }
{
    if !matches!(last.pending.power, Power::On) {
        return Ok(());
    }
    let place = put_down(rt, alloc, floor, zero, now)?;
    await_next(rt, place, last.at);
    Ok(())
}

// One turn of a monitor, and a wait where it made no entry and a job is active.
fn tend<K: Keeper, P: Spawner, C: Clock, R: Wait>(
    rt: &R,
    alloc: Global,
    floor: &Floor<K>,
    seat: &mut MonitorSeat<K, P, C>,
) -> Result<(), MonitorFault>
    requires sits { MonitorSits floor.now seat.old }
    ensures sits { MonitorSits floor.now seat.new }
    ensures tends { Tends P.asked P.told P.misses P.faults floor.now seat.old seat.new }
    ensures fault { seat.new.fault ≡ seat.old.fault }
    ensures told { OnOk result (seat.new.monitor.kept ≡ None) }
    ensures cause { IfErr result (IsTendHalt P.faults seat.old seat.new) }
{
    let MonitorSeat {
        spawner,
        clock,
        monitor,
        pass,
        ..
    } = seat;
    let Some(pass) = pass else { unreachable!() };
    let turned = look_and_turn(rt, alloc, floor, pass, monitor, spawner, clock)?;
    if turned.sent == 0 && turned.pending.active > 0 {
        let until = wait_until(clock.now(), turned.pending.next);
        monitor.wait(rt, alloc, floor, pass, spawner, clock, Some(until))?;
    }
    Ok(())
}

// A turn of a monitor; nothing of another seat.
fn tend_seat<K: Keeper, D: Desk, P: Spawner, C: Clock, R: Wait>(
    rt: &R,
    alloc: Global,
    floor: &Floor<K>,
    seat: &mut Seat<K, D, P, C>,
)
    requires sits { Sits (tellers D.hand D.had D.dries D.faults P.asked P.told P.misses P.faults) floor.now seat.old }
    ensures sits { Sits (tellers D.hand D.had D.dries D.faults P.asked P.told P.misses P.faults) floor.now seat.new }
    ensures runs { Runs (tellers D.hand D.had D.dries D.faults P.asked P.told P.misses P.faults) floor.now seat.old seat.new }
{
    match seat {
        Seat::Monitor(monitor) => monitor.fault = tend(rt, alloc, floor, monitor).err(),
        Seat::Worker(_) | Seat::Closer(_) => {}
    }
}

// A turn of each monitor, one after another.
fn tend_all<K: Keeper, D: Desk, P: Spawner, C: Clock, R: Wait>(
    rt: &R,
    alloc: Global,
    floor: &Floor<K>,
    seats: &mut [Seat<K, D, P, C>],
)
    requires sit { All (Sits (tellers D.hand D.had D.dries D.faults P.asked P.told P.misses P.faults) floor.now) seats.old }
    ensures sit { All (Sits (tellers D.hand D.had D.dries D.faults P.asked P.told P.misses P.faults) floor.now) seats.new }
    ensures run { AllZip (Runs (tellers D.hand D.had D.dries D.faults P.asked P.told P.misses P.faults) floor.now) seats.old seats.new }
{
    for seat in seats.iter_mut() {
        tend_seat(rt, alloc, floor, seat);
    }
}

// The monitors' turns, one after another, until no job is active.
fn drain<K: Keeper, D: Desk, P: Spawner, C: Clock, R: Wait>(
    rt: &R,
    alloc: Global,
    floor: &Floor<K>,
    zero: &mut FloorPass<K>,
    seats: &mut [Seat<K, D, P, C>],
) -> Result<(), Halt>
    requires own { IsPassOf floor.now zero.old }
    requires sit { All (Sits (tellers D.hand D.had D.dries D.faults P.asked P.told P.misses P.faults) floor.now) seats.old }
    ensures own { IsPassOf floor.now zero.new }
    ensures same { IsSame zero.old zero.new }
    ensures looked { HasLooked zero.old zero.new }
    ensures sit { All (Sits (tellers D.hand D.had D.dries D.faults P.asked P.told P.misses P.faults) floor.now) seats.new }
    ensures run { AllZip (Runs (tellers D.hand D.had D.dries D.faults P.asked P.told P.misses P.faults) floor.now) seats.old seats.new }
    ensures told { OnOk result (All KeepsNone seats.new) }
    ensures cause { IfErr result (IsSeatHalt seats.new) }
{
    'turns: for _ in rt.forever() {
        if let Some(halt) = seats_halt(seats) {
            return Err(halt);
        }
        if floor.pending(rt, zero, 0).pending.active == 0 {
            return Ok(());
        }
        tend_all(rt, alloc, floor, seats);
    }
    unreachable!()
}

// Says that connections are taken, and takes them.
fn serve_announced<
    K: Keeper,
    L: Listener,
    O: Sink,
    P: Spawner,
    C: Clock,
    G: Gate,
    R: Threads + Wait + Sync,
>(
    rt: &R,
    alloc: Global,
    floor: &Floor<K>,
    zero: &mut FloorPass<K>,
    listener: &L,
    gate: &G,
    seats: &mut [Seat<K, L::D, P, C>],
    out: &mut O,
    workers: usize,
) -> Result<Waiting, Halt>
where
    K: Send,
    L: Sync,
    L::I: Send + Sync,
    L::O: Send + Sync,
    L::D: Send + Sync,
    P: Send,
    C: Send,
    G: Sync,
    requires workers { workers ≤ length seats.old }
    requires own { IsPassOf floor.now zero.old }
    requires sit { All (Sits (tellers L.D.hand L.D.had L.D.dries L.D.faults P.asked P.told P.misses P.faults) floor.now) seats.old }
    ensures own { IsPassOf floor.now zero.new }
    ensures same { IsSame zero.old zero.new }
    ensures looked { HasLooked zero.old zero.new }
    ensures sit { All (Sits (tellers L.D.hand L.D.had L.D.dries L.D.faults P.asked P.told P.misses P.faults) floor.now) seats.new }
    ensures run { AllZip (Runs (tellers L.D.hand L.D.had L.D.dries L.D.faults P.asked P.told P.misses P.faults) floor.now) seats.old seats.new }
    ensures last { IfOk result (IsLookOf floor.now zero.new) }
    ensures quiet { IfOk result (λ last. last.pending.busy ≡ 0) }
    ensures over { IfOk result (λ last. (list_all is_dry seats.new ≡ true) ⊎ (is_on last.pending.power ≡ false)) }
    ensures written { WritesReady result (O.written out.old) (O.written out.new) }
    ensures faults { O.faults out.old ≤ O.faults out.new }
    ensures cause { IfErr result (IsRoundsHalt (O.faults out.old) (O.faults out.new) seats.new) }
{
    announce(out)?;
    let last = serve_rounds(rt, alloc, floor, zero, listener, gate, seats, workers)?;
    Ok(last)
}

// Behind rounds that are over: puts the power down, and lets the monitors turn until no job is active.
fn finish<K: Keeper, D: Desk, P: Spawner, C: Clock, R: Wait>(
    rt: &R,
    alloc: Global,
    floor: &Floor<K>,
    zero: &mut FloorPass<K>,
    seats: &mut [Seat<K, D, P, C>],
    now: Moment,
    last: Waiting,
) -> Result<(), Halt>
    requires own { IsPassOf floor.now zero.old }
    requires number { zero.old.number ≡ 0 }
    requires last { IsLookOf floor.now zero.old last }
    requires quiet { last.pending.busy ≡ 0 }
    requires sit { All (Sits (tellers D.hand D.had D.dries D.faults P.asked P.told P.misses P.faults) floor.now) seats.old }
    ensures own { IsPassOf floor.now zero.new }
    ensures same { IsSame zero.old zero.new }
    ensures mark { zero.old.mark ≤ zero.new.mark }
    ensures seen { StartsWith zero.new.seen zero.old.seen }
    ensures sit { All (Sits (tellers D.hand D.had D.dries D.faults P.asked P.told P.misses P.faults) floor.now) seats.new }
    ensures run { AllZip (Runs (tellers D.hand D.had D.dries D.faults P.asked P.told P.misses P.faults) floor.now) seats.old seats.new }
    ensures made { MayMake end_call zero.old zero.new }
    ensures quiet { OnOk result ((zero.new.mine ≡ zero.old.mine) ⊎ EndsQuietly floor.now.opening.state zero.new.seen) }
    ensures told { OnOk result (All KeepsNone seats.new) }
    ensures cause { IfErr result (λ h. IsCallHalt floor.now.opening.limit zero.old zero.new h ⊎ IsSeatHalt seats.new h) }
{
    power_down(rt, alloc, floor, zero, now, last)?;
    drain(rt, alloc, floor, zero, seats)?;
    Ok(())
}

// Serves once the controlling subsystem was started, up to the end of power.
fn serve_begun<
    K: Keeper,
    L: Listener,
    O: Sink,
    P: Spawner,
    C: Clock,
    G: Gate,
    R: Threads + Wait + Sync,
>(
    rt: &R,
    alloc: Global,
    floor: &Floor<K>,
    zero: &mut FloorPass<K>,
    listener: &L,
    gate: &G,
    seats: &mut [Seat<K, L::D, P, C>],
    out: &mut O,
    workers: usize,
) -> Result<(), Halt>
where
    K: Send,
    L: Sync,
    L::I: Send + Sync,
    L::O: Send + Sync,
    L::D: Send + Sync,
    P: Send,
    C: Send,
    G: Sync,
    requires own { IsPassOf floor.now zero.old }
    requires number { zero.old.number ≡ 0 }
    requires closer { IsCloserAt workers seats.old }
    requires sit { All (Sits (tellers L.D.hand L.D.had L.D.dries L.D.faults P.asked P.told P.misses P.faults) floor.now) seats.old }
    ensures own { IsPassOf floor.now zero.new }
    ensures same { IsSame zero.old zero.new }
    ensures mark { zero.old.mark ≤ zero.new.mark }
    ensures sit { All (Sits (tellers L.D.hand L.D.had L.D.dries L.D.faults P.asked P.told P.misses P.faults) floor.now) seats.new }
    ensures run { AllZip (Runs (tellers L.D.hand L.D.had L.D.dries L.D.faults P.asked P.told P.misses P.faults) floor.now) seats.old seats.new }
    ensures made { MayMake end_call zero.old zero.new }
    ensures quiet { OnOk result ((zero.new.mine ≡ zero.old.mine) ⊎ EndsQuietly floor.now.opening.state zero.new.seen) }
    ensures over { OnOk result (WereDry (tellers L.D.hand L.D.had L.D.dries L.D.faults P.asked P.told P.misses P.faults) floor.now seats.old seats.new ⊎ WasDown floor.now.opening.state zero.old.mine zero.new.seen) }
    ensures told { OnOk result (All KeepsNone seats.new) }
    ensures written { WritesReady result (O.written out.old) (O.written out.new) }
    ensures faults { O.faults out.old ≤ O.faults out.new }
    ensures cause { IfErr result (IsServeHalt floor.now.opening.limit (O.faults out.old) (O.faults out.new) zero.old zero.new seats.new) }
{
    let served = serve_announced(rt, alloc, floor, zero, listener, gate, seats, out, workers);
    let now = closer_now(seats, workers);
    match served {
        Ok(last) => finish(rt, alloc, floor, zero, seats, now, last),
        Err(halt) => Err(stop(rt, alloc, floor, zero, now, halt)),
    }
}

/// Serves over an open floor whose passes the seats have, up to the end of power.
pub(crate) fn serve_floor<
    K: Keeper,
    L: Listener,
    O: Sink,
    P: Spawner,
    C: Clock,
    G: Gate,
    R: Threads + Wait + Sync,
>(
    rt: &R,
    alloc: Global,
    floor: &Floor<K>,
    zero: &mut FloorPass<K>,
    listener: &L,
    gate: &G,
    seats: &mut [Seat<K, L::D, P, C>],
    out: &mut O,
    ctl: &QName,
    workers: usize,
) -> Result<(), Halt>
where
    K: Send,
    L: Sync,
    L::I: Send + Sync,
    L::O: Send + Sync,
    L::D: Send + Sync,
    P: Send,
    C: Send,
    G: Sync,
    requires own { IsPassOf floor.now zero.old }
    requires number { zero.old.number ≡ 0 }
    requires none { zero.old.mine ≡ [] }
    requires closer { IsCloserAt workers seats.old }
    requires sit { All (Sits (tellers L.D.hand L.D.had L.D.dries L.D.faults P.asked P.told P.misses P.faults) floor.now) seats.old }
    ensures own { IsPassOf floor.now zero.new }
    ensures same { IsSame zero.old zero.new }
    ensures mark { zero.old.mark ≤ zero.new.mark }
    ensures sit { All (Sits (tellers L.D.hand L.D.had L.D.dries L.D.faults P.asked P.told P.misses P.faults) floor.now) seats.new }
    ensures run { AllZip (Runs (tellers L.D.hand L.D.had L.D.dries L.D.faults P.asked P.told P.misses P.faults) floor.now) seats.old seats.new }
    ensures calls { AreServerCalls ctl.now zero.new.mine }
    ensures finishes { OnOk result (Finishes (WereDry (tellers L.D.hand L.D.had L.D.dries L.D.faults P.asked P.told P.misses P.faults) floor.now seats.old seats.new) floor.now.opening.state ctl.now seats.new zero.new) }
    ensures written { WritesReady result (O.written out.old) (O.written out.new) }
    ensures faults { O.faults out.old ≤ O.faults out.new }
    ensures cause { IfErr result (IsServeHalt floor.now.opening.limit (O.faults out.old) (O.faults out.new) zero.old zero.new seats.new) }
{
    let now = closer_now(seats, workers);
    begin(rt, alloc, floor, zero, ctl, now)?;
    serve_begun(rt, alloc, floor, zero, listener, gate, seats, out, workers)
}
