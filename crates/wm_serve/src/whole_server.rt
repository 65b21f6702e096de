// A whole server: what the words say, the floor over the store, the threads, and the status.
ghost use Rattle.std.specs.Prelude.{◌≡◌, ◌≢◌, ◌⊎◌, ℕ, ◌<◌, ◌≤◌, false, true, [], All, Err, IfErr, IfOk, IfSome, None, OnOk, Some, count_by, length, map, string_bytes};
ghost use Rattle.std.specs.List.{AllZip, list_all};
ghost use Rattle.wm_traits.specs.Cause.{raised};
ghost use Rattle.wm_law.specs.Pending.{active};
ghost use Rattle.wm_run.specs.Kept.{HasBadRow};
ghost use Rattle.wm_floor.specs.History.{reached};
ghost use Rattle.wm_law.specs.History.{IsLegal};
ghost use Rattle.wm_floor.specs.Keeping.{telling};
ghost use Rattle.wm_floor.specs.Stored.{HasTables};
ghost use Rattle.wm_floor.specs.Trail.{HasTrail};
ghost use Rattle.wm_floor.specs.Floor.{HasLooked, IsPassOf, IsSame};
ghost use Rattle.wm_floor.specs.Ledger.{behind, caller_of};
ghost use Rattle.wm_turn.specs.Passed.{HasOwn, fresh, own};
ghost use Rattle.wm_serve.specs.Ending.{HasWritten, IsCloserAt, WritesReady};
ghost use Rattle.wm_serve.specs.Halts.{ended_status};
ghost use Rattle.wm_serve.specs.Seats.{IsFresh, pass_of, takes_pass, tellers};
ghost use Rattle.wm_serve.specs.Done.{AreServed, AreServedBy, SeatsServed};
ghost use Rattle.wm_serve.specs.Over.{AreServerCalls, DryRose, Finishes};
ghost use Rattle.wm_serve.specs.Server.{AnyZip, DeskRose, HasLog, IsEndHalt, IsServeStatus, IsUnfit, OpensPlanned, SpawnerRose, are_fit, is_closer, is_monitor, is_worker, limit_of, offset_of, serve_plan};

use crate::halt::Halt;
use crate::seat::Seat;
use crate::seating::{enter_all, leave_all};
use crate::serving::serve_floor;
use std::alloc::Global;
use std::sync::Wait;
use std::thread::Threads;
use wm_core::Setup;
use wm_floor::{Closed, Floor, FloorPass, Log};
use wm_listener::Listener;
use wm_plan::{Plan, ServePlan, WordFault, read_words};
use wm_run::{NO_MEMORY, WRONG_WORDS, open_status, store_status};
use wm_traits::{Clock, Keeper, Sink, Spawner, Store};
use wm_web::Gate;

/// What a server answers for: its status, and its history where its floor was opened.
#[derive(Drop)]
pub struct Served {
    pub status: u8,
    pub log: Option<Log>,
}

// A server whose floor wasn't opened.
fn not_begun(status: u8) -> Served
    ensures status { result.status ≡ status }
    ensures log { result.log ≡ None }
{
    Served { status, log: None }
}

// The plan of a server that the words are, or its status with them.
fn serve_plan(alloc: Global, words: &[String]) -> Result<ServePlan, u8>
    ensures ok { IfOk result (λ plan. serve_plan (map string_bytes words.now) ≡ Some plan) }
    ensures some { IfOk result (λ plan. 1 ≤ plan.log_limit) }
    ensures most { IfOk result (λ plan. plan.log_limit ≤ 1000000) }
    ensures workers { IfOk result (λ plan. plan.workers ≤ 16) }
    ensures monitors { IfOk result (λ plan. plan.monitors ≤ 8) }
    ensures statuses { IfErr result (λ status. (status ≡ 2) ⊎ (status ≡ 6)) }
    ensures wrong { result ≡ Err 2 → serve_plan (map string_bytes words.now) ≡ None }
{
    match read_words(alloc, words) {
        Ok(Plan::Serve(plan)) => Ok(plan),
        Ok(Plan::Run(_) | Plan::Drill(_)) | Err(WordFault::Bad) => Err(WRONG_WORDS),
        Err(WordFault::NoMemory) => Err(NO_MEMORY),
    }
}

// The status of a server over an open floor.
fn ended_status(end: Result<(), Halt>) -> u8
    ensures { result ≡ ended_status end }
{
    match end {
        Ok(()) => 0,
        Err(halt) => halt.status(),
    }
}

// Where the server wasn't ended by a fault: looks until no job is active. No other pass is out any more, so the first look
// finds none.
fn await_idle<K: Keeper, R: Wait>(
    rt: &R,
    floor: &Floor<K>,
    zero: &mut FloorPass<K>,
    end: Result<(), Halt>,
)
    requires own { IsPassOf floor.now zero.old }
    ensures own { IsPassOf floor.now zero.new }
    ensures same { IsSame zero.old zero.new }
    ensures looked { HasLooked zero.old zero.new }
    ensures idle { OnOk end (active (reached (behind floor.now.opening zero.new.seen)) ≡ 0) }
{
    if end.is_err() {
        return;
    }
    'looks: for _ in rt.forever() {
        if floor.pending(rt, zero, 0).pending.active == 0 {
            return;
        }
    }
    unreachable!()
}

// Serves over an open floor: the seats take their passes, and give them back behind.
fn serve_open<
    L: Listener,
    O: Sink,
    K: Keeper,
    P: Spawner,
    C: Clock,
    G: Gate,
    R: Threads + Wait + Sync,
>(
    rt: &R,
    alloc: Global,
    plan: &ServePlan,
    listener: &L,
    seats: &mut [Seat<K, L::D, P, C>],
    out: &mut O,
    floor: &Floor<K>,
    zero: &mut FloorPass<K>,
    gate: &G,
) -> Result<(), Halt>
where
    K: Send,
    L: Sync,
    L::I: Send + Sync,
    L::O: Send + Sync,
    L::D: Send + Sync,
    P: Send,
    C: Send,
    G: Sync,
    requires few { length seats.old ≤ 25 }
    requires closer { IsCloserAt plan.now.workers seats.old }
    requires fresh { All (IsFresh (tellers L.D.hand L.D.had L.D.dries L.D.faults P.asked P.told P.misses P.faults)) seats.old }
    requires limit { floor.now.opening.limit ≤ 1000000 }
    requires own { IsPassOf floor.now zero.old }
    requires pass { zero.old ≡ fresh floor.now.turnstile 0 (Some floor.now.opening) [] }
    ensures own { IsPassOf floor.now zero.new }
    ensures zero { zero.new.number ≡ 0 }
    ensures made { zero.new.made ≡ count_by takes_pass seats.old }
    ensures joined { length zero.new.joined ≡ count_by takes_pass seats.old }
    ensures vacant { All (λ seat. pass_of seat ≡ None) seats.new }
    ensures idle { OnOk result (active (reached (behind floor.now.opening zero.new.seen)) ≡ 0) }
    ensures written { WritesReady result (O.written out.old) (O.written out.new) }
    ensures faults { O.faults out.old ≤ O.faults out.new }
    ensures cause { IfErr result (IsEndHalt (tellers L.D.hand L.D.had L.D.dries L.D.faults P.asked P.told P.misses P.faults) floor.now.opening.limit (O.faults out.old) (O.faults out.new) seats.old seats.new zero.new) }
    ensures calls { AreServerCalls plan.now.ctl zero.new.mine }
    ensures finishes { OnOk result (Finishes (AllZip (DryRose (tellers L.D.hand L.D.had L.D.dries L.D.faults P.asked P.told P.misses P.faults)) seats.old seats.new) floor.now.opening.state plan.now.ctl seats.new zero.new) }
    ensures served { HasOwn caller_of zero.new.seen zero.new.joined → SeatsServed (tellers L.D.hand L.D.had L.D.dries L.D.faults P.asked P.told P.misses P.faults) floor.now zero.new.seen 1 seats.old seats.new }
{
    enter_all(seats, floor, zero);
    let end = serve_floor(
        rt,
        alloc,
        floor,
        zero,
        listener,
        gate,
        seats,
        out,
        &plan.ctl,
        plan.workers as usize,
    );
    leave_all(seats, floor, zero);
    await_idle(rt, floor, zero, end);
    end
}

// The history of a floor to which all passes were given back, with a status, and its keeper.
fn close_floor<K: Keeper>(floor: Floor<K>, zero: FloorPass<K>, status: u8) -> (Served, K)
    requires own { IsPassOf floor zero }
    requires zero { zero.number ≡ 0 }
    requires all { length zero.joined ≡ zero.made }
    ensures status { result.0.status ≡ status }
    ensures log { result.0.log ≡ Some zero.seen }
    ensures legal { IsLegal floor.opening.state zero.seen }
    ensures tables { HasTables (reached (behind floor.opening zero.seen)) (K.tables result.1) }
    ensures trail { HasTrail (behind floor.opening zero.seen) (telling K.tables K.trail floor.opening.found) (telling K.tables K.trail result.1) }
    ensures untold { K.trail floor.opening.keeper ≡ None → K.trail result.1 ≡ None }
    ensures risen { zero.mark ≢ 0 → raised (K.faults floor.opening.found) ≤ K.faults result.1 }
    ensures joined { HasOwn caller_of zero.seen zero.joined }
    ensures callers { (n : ℕ) → zero.made < n → own caller_of n zero.seen ≡ [] }
{
    match floor.close(zero) {
        Ok(Closed { log, keeper }) => (
            Served {
                status,
                log: Some(log),
            },
            keeper,
        ),
        Err(_) => unreachable!(),
    }
}

/// Serves over a keeper, and gives it back.
fn serve_kept<
    L: Listener,
    O: Sink,
    K: Keeper,
    P: Spawner,
    C: Clock,
    G: Gate,
    R: Threads + Wait + Sync,
>(
    rt: &R,
    alloc: Global,
    plan: &ServePlan,
    listener: &L,
    seats: &mut [Seat<K, L::D, P, C>],
    out: &mut O,
    keeper: K,
    gate: &G,
) -> (Served, K)
where
    K: Send,
    L: Sync,
    L::I: Send + Sync,
    L::O: Send + Sync,
    L::D: Send + Sync,
    P: Send,
    C: Send,
    G: Sync,
    requires some { 1 ≤ plan.now.log_limit }
    requires most { plan.now.log_limit ≤ 1000000 }
    requires few { length seats.old ≤ 25 }
    requires fit { are_fit plan.now.workers plan.now.monitors seats.old ≡ true }
    requires fresh { All (IsFresh (tellers L.D.hand L.D.had L.D.dries L.D.faults P.asked P.told P.misses P.faults)) seats.old }
    ensures vacant { All (λ seat. pass_of seat ≡ None) seats.new }
    ensures log { HasLog plan.now.offset result.0.status result.0.log (telling K.tables K.trail keeper) (telling K.tables K.trail result.1) (λ opened log. AreServed (tellers L.D.hand L.D.had L.D.dries L.D.faults P.asked P.told P.misses P.faults) plan.now result.0.status opened log seats.old seats.new) }
    ensures written { HasWritten result.0.status (O.written out.old) (O.written out.new) }
    ensures write_fault { result.0.status ≡ 4 → raised (O.faults out.old) ≤ O.faults out.new }
    ensures keeper_fault { result.0.status ≡ 5 → raised (K.faults keeper) ≤ K.faults result.1 }
    ensures log_full { result.0.status ≡ 7 → IfSome result.0.log (λ log. plan.now.log_limit ≤ length log) }
    ensures wait_fault { result.0.status ≡ 8 → AnyZip (SpawnerRose (tellers L.D.hand L.D.had L.D.dries L.D.faults P.asked P.told P.misses P.faults)) seats.old seats.new }
    ensures bad_row { result.0.status ≡ 9 → HasBadRow plan.now.offset (K.tables keeper) (K.tables result.1) }
    ensures listen_fault { result.0.status ≡ 10 → AnyZip (DeskRose (tellers L.D.hand L.D.had L.D.dries L.D.faults P.asked P.told P.misses P.faults)) seats.old seats.new }
    ensures out_faults { O.faults out.old ≤ O.faults out.new }
    ensures begun { result.0.status ≡ 2 → ⊥ }
    ensures statuses { IsServeStatus result.0.status }
    ensures callers { IfSome result.0.log (λ log. (n : ℕ) → count_by takes_pass seats.old < n → own caller_of n log ≡ []) }
{
    let setup = Setup {
        ctl: plan.ctl,
        offset: plan.offset,
    };
    let (floor, mut zero) = match Floor::open(alloc, keeper, &setup, plan.log_limit) {
        Ok(opened) => opened,
        Err((keeper, fault)) => return (not_begun(open_status(&fault)), keeper),
    };
    let end = serve_open(
        rt, alloc, plan, listener, seats, out, &floor, &mut zero, gate,
    );
    close_floor(floor, zero, ended_status(end))
}

// Whether all of them are workers' seats.
fn are_workers<K: Keeper, D, P, C>(seats: &[Seat<K, D, P, C>]) -> bool
    ensures { result ≡ list_all is_worker seats.now }
{
    seats.iter().all(|seat| matches!(seat, Seat::Worker(_)))
}

fn is_closer<K: Keeper, D, P, C>(seat: &Seat<K, D, P, C>) -> bool
    ensures { result ≡ is_closer seat.now }
{
    matches!(seat, Seat::Closer(_))
}

// Whether all of them are monitors' seats.
fn are_monitors<K: Keeper, D, P, C>(seats: &[Seat<K, D, P, C>]) -> bool
    ensures { result ≡ list_all is_monitor seats.now }
{
    seats.iter().all(|seat| matches!(seat, Seat::Monitor(_)))
}

// Whether the seats are so many workers', a closer's and so many monitors', in this order.
fn are_fit<K: Keeper, D, P, C>(plan: &ServePlan, seats: &[Seat<K, D, P, C>]) -> bool
    ensures { result ≡ are_fit plan.now.workers plan.now.monitors seats.now }
{
    let (workers, monitors) = (plan.workers as usize, plan.monitors as usize);
    seats.len() == workers + 1 + monitors
        && are_workers(&seats[..workers])
        && is_closer(&seats[workers])
        && are_monitors(&seats[workers + 1..])
}

/// Serves as the words of a command line say: connections of the listener are answered, and the jobs of their commands run, until
/// a PWRDWNSYS is accepted or no connection can come any more, and no job is active. It writes `ready` once connections are
/// taken. Status 0 comes where no job is active any more; 2 where the words are none of a server or the seats aren't as they
/// say; 4 where the output couldn't be written, 5 where the store or its keeper failed, 6 for want of memory, 7 where the
/// history is full, 8 where a spawner couldn't kill or look, 9 where the rows that were found aren't good, and 10 where a look
/// for a connection failed.
pub fn serve<
    L: Listener,
    O: Sink,
    S: Store,
    P: Spawner,
    C: Clock,
    G: Gate,
    R: Threads + Wait + Sync,
>(
    rt: &R,
    alloc: Global,
    words: &[String],
    listener: &L,
    seats: &mut [Seat<S::K, L::D, P, C>],
    out: &mut O,
    store: &mut S,
    gate: &G,
) -> Served
where
    S::K: Send,
    L: Sync,
    L::I: Send + Sync,
    L::O: Send + Sync,
    L::D: Send + Sync,
    P: Send,
    C: Send,
    G: Sync,
    requires fresh { All (IsFresh (tellers L.D.hand L.D.had L.D.dries L.D.faults P.asked P.told P.misses P.faults)) seats.old }
    ensures vacant { All (λ seat. pass_of seat ≡ None) seats.new }
    ensures words { serve_plan (map string_bytes words.now) ≡ None → (result.status ≡ 2) ⊎ (result.status ≡ 6) }
    ensures seats { IfSome (serve_plan (map string_bytes words.now)) (λ plan. are_fit plan.workers plan.monitors seats.old ≡ false → (result.status ≡ 2) ⊎ (result.status ≡ 6)) }
    ensures wrong { result.status ≡ 2 → IsUnfit (serve_plan (map string_bytes words.now)) seats.old }
    ensures opened { OpensPlanned (serve_plan (map string_bytes words.now)) result.status (S.opened store.old) (S.opened store.new) }
    ensures log { HasLog (offset_of (serve_plan (map string_bytes words.now))) result.status result.log (telling S.tables S.trail store.old) (telling S.tables S.trail store.new) (AreServedBy (tellers L.D.hand L.D.had L.D.dries L.D.faults P.asked P.told P.misses P.faults) (serve_plan (map string_bytes words.now)) result.status seats.old seats.new) }
    ensures written { HasWritten result.status (O.written out.old) (O.written out.new) }
    ensures write_fault { result.status ≡ 4 → raised (O.faults out.old) ≤ O.faults out.new }
    ensures keeper_fault { result.status ≡ 5 → raised (S.faults store.old) ≤ S.faults store.new }
    ensures log_full { result.status ≡ 7 → IfSome result.log (λ log. limit_of (serve_plan (map string_bytes words.now)) ≤ length log) }
    ensures wait_fault { result.status ≡ 8 → AnyZip (SpawnerRose (tellers L.D.hand L.D.had L.D.dries L.D.faults P.asked P.told P.misses P.faults)) seats.old seats.new }
    ensures bad_row { result.status ≡ 9 → HasBadRow (offset_of (serve_plan (map string_bytes words.now))) (S.tables store.old) (S.tables store.new) }
    ensures listen_fault { result.status ≡ 10 → AnyZip (DeskRose (tellers L.D.hand L.D.had L.D.dries L.D.faults P.asked P.told P.misses P.faults)) seats.old seats.new }
    ensures callers { IfSome result.log (λ log. (n : ℕ) → count_by takes_pass seats.old < n → own caller_of n log ≡ []) }
    ensures out_faults { O.faults out.old ≤ O.faults out.new }
    ensures statuses { IsServeStatus result.status }
{
    let plan = match serve_plan(alloc, words) {
        Ok(plan) => plan,
        Err(status) => return not_begun(status),
    };
    if !are_fit(&plan, seats) {
        return not_begun(WRONG_WORDS);
    }
    match store.open(plan.store.as_str()) {
        Ok(keeper) => {
            let (served, keeper) = serve_kept(rt, alloc, &plan, listener, seats, out, keeper, gate);
            store.close(keeper);
            served
        }
        Err(fault) => not_begun(store_status(fault)),
    }
}
