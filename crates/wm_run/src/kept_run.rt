// A run over a keeper: its machine opens with the rows, the session is served, and the keeper is given back.
ghost use Rattle.std.specs.Prelude.{◌≡◌, ◌≢◌, ◌<◌, ◌≤◌, ℕ, None, OnOk, [], length, option_to_list, true};
ghost use Rattle.std.specs.List.{list_all};
ghost use Rattle.wm_traits.specs.Cause.{raised};
ghost use Rattle.wm_run.specs.Kept.{HasBadRow, HasHistory};
ghost use Rattle.wm_run.specs.Outcome.{RunTakes};
ghost use Rattle.wm_run.specs.Run.{IsRunStatus, IsServed, ended_status};
ghost use Rattle.wm_run.specs.Serving.{is_of_run};
ghost use Rattle.wm_law.specs.History.{IsLegal};
ghost use Rattle.wm_law.specs.Pending.{active};
ghost use Rattle.wm_floor.specs.History.{reached};
ghost use Rattle.wm_floor.specs.Keeping.{telling};
ghost use Rattle.wm_floor.specs.Stored.{HasTables};
ghost use Rattle.wm_floor.specs.Trail.{HasTrail};
ghost use Rattle.wm_turn.specs.Passed.{HasOwn, own};
ghost use Rattle.wm_floor.specs.Floor.{HasLooked, IsPassOf, IsSame};
ghost use Rattle.wm_floor.specs.Ledger.{behind, caller_of};

use crate::halt::Halt;
use crate::running::Run;
use crate::settings::Settings;
use crate::statuses::open_status;
use crate::whole_run::{Ran, not_begun};
use std::alloc::Global;
use std::sync::Wait;
use wm_core::Setup;
use wm_floor::{Closed, Floor, FloorPass, MONITOR, Monitor, OpenFault, Report};
use wm_traits::{Clock, Keeper, Sink, Source, Spawner};

// What a machine opens with.
fn setup(settings: &Settings) -> Setup
    ensures ctl { result.ctl ≡ settings.now.ctl }
    ensures offset { result.offset ≡ settings.now.offset }
{
    Setup {
        ctl: settings.ctl,
        offset: settings.offset,
    }
}

// The status of a session's end.
fn ended_status(end: Result<bool, Halt>) -> u8
    ensures { result ≡ ended_status end }
{
    match end {
        Ok(false) => 0,
        Ok(true) => 1,
        Err(halt) => halt.status(),
    }
}

impl<K: Keeper> Run<K> {
    ghost use Rattle.std.specs.Prelude.{◌≡◌, ◌≢◌, ◌<◌, ◌≤◌, List, [], IfOk, IfErr, OnOk, None, IsErrOf, length, min};
    ghost use Rattle.wm_law.specs.History.{IsLegal};
    ghost use Rattle.wm_law.specs.Pending.{active};
    ghost use Rattle.wm_law.specs.declared.call.Entry.{Entry};
    ghost use Rattle.wm_floor.specs.History.{reached};
    ghost use Rattle.wm_floor.specs.Keeping.{telling, IsOpened};
    ghost use Rattle.wm_floor.specs.OpenFaults.{IsCounted, NamesBad};
    ghost use Rattle.wm_floor.specs.Stored.{HasTables};
    ghost use Rattle.wm_floor.specs.Trail.{HasTrail};
    ghost use Rattle.wm_floor.specs.Floor.{IsLeftOrOpened};
    ghost use Rattle.wm_floor.specs.Ledger.{behind};
    ghost use Rattle.wm_floor.specs.Scene.{IsClear};
    ghost use Rattle.wm_floor.specs.Lists.{since};
    ghost use Rattle.wm_run.specs.Grown.{session_of};
    ghost use Rattle.wm_run.specs.Halt.{HasFloorCauses, HasInputCauses, KeepsNone};
    ghost use Rattle.wm_run.specs.Outcome.{SessionCame};
    ghost use Rattle.wm_run.specs.Serving.{IsFresh, IsRunning, IsWhole, RunServes};
    ghost use Rattle.wm_run.specs.Taking.{TakesInput};

    // The floor of the rows that a keeper has, with the session's pass and the monitor's, and a monitor that keeps nothing.
    fn open(alloc: Global, keeper: K, settings: &Settings) -> Result<Run<K>, (K, OpenFault)>
        requires some { 1 ≤ settings.now.log_limit }
        requires most { settings.now.log_limit ≤ 1000000 }
        ensures ready { IfOk result IsRunning }
        ensures fresh { IfOk result IsFresh }
        ensures made { IfOk result (λ run. run.session.made ≡ 1) }
        ensures joined { IfOk result (λ run. run.session.joined ≡ []) }
        ensures clear { IfOk result (λ run. IsClear run.monitor) }
        ensures ok { IfOk result (λ run. IsOpened settings.now.offset run.floor.opening.state (telling K.tables K.trail keeper) (telling K.tables K.trail run.floor.opening.keeper)) }
        ensures found { IfOk result (λ run. run.floor.opening.found ≡ keeper) }
        ensures limit { IfOk result (λ run. run.floor.opening.limit ≡ settings.now.log_limit) }
        ensures err { IfErr result (λ back. IsLeftOrOpened settings.now.offset (telling K.tables K.trail keeper) (telling K.tables K.trail back.0) back.1) }
        ensures bad { IfErr result (λ back. NamesBad settings.now.offset (K.tables keeper) back.1) }
        ensures faults { IfErr result (λ back. IsCounted (K.faults keeper) (K.faults back.0) back.1) }
    {
        let (floor, mut session) = Floor::open(
            alloc,
            keeper,
            &setup(settings),
            settings.log_limit,
        )?;
        let Ok(watch) = floor.split(&mut session) else {
            unreachable!()
        };
        Ok(Run {
            floor,
            session,
            watch,
            monitor: Monitor::new(),
        })
    }

    // The first call, the lines of the input, and the end of the input, where no line put the power down.
    fn serve<I: Source, O: Sink, P: Spawner, C: Clock, R: Wait>(
        &mut self,
        rt: &R,
        alloc: Global,
        input: &mut I,
        out: &mut O,
        spawner: &mut P,
        clock: &mut C,
        settings: &Settings,
    ) -> Result<bool, Halt>
        requires ready { IsRunning self.old }
        requires fresh { IsFresh self.old }
        ensures ready { IsRunning self.new }
        ensures serves { RunServes P.asked P.told P.misses P.faults self.old spawner.old self.new spawner.new }
        ensures input { (log : List Entry) → IsWhole self.new log → TakesInput (I.left input.old) (I.left input.new) (λ bytes. SessionCame settings.now bytes (I.left input.new) result (session_of self.old)
            (since self.old.session.seen log) (O.written out.old) (O.written out.new)) }
        ensures kept { OnOk result (self.new.monitor.kept ≡ None) }
        ensures causes { HasInputCauses result (I.faults input.old) (I.faults input.new) (O.faults out.old) (O.faults out.new) (P.faults spawner.old) (P.faults spawner.new) }
        ensures floor_causes { HasFloorCauses (IsErrOf result Halt.KeeperFault) (IsErrOf result Halt.LogFull) (min self.new.floor.opening.limit 4000000) self.new }
        ensures none_kept { OnOk result (KeepsNone self.old.monitor.kept self.new.monitor.kept) }
        ensures full { IsErrOf result Halt.LogFull → length self.new.watch.seen < 4000000 → KeepsNone self.old.monitor.kept self.new.monitor.kept }
    {
        self.begin(rt, alloc, spawner, clock, &settings.ctl)?;
        let answered = self.take_all(rt, alloc, input, out, spawner, clock, &settings.user)?;
        self.finish(rt, alloc, spawner, clock, answered.down)?;
        Ok(answered.faulty)
    }
}

// Where the run wasn't ended by a fault: looks until no job is active. The monitor's pass isn't out any more, so the first look
// finds none.
fn await_idle<K: Keeper, R: Wait>(
    rt: &R,
    floor: &Floor<K>,
    pass: &mut FloorPass<K>,
    end: Result<bool, Halt>,
)
    requires own { IsPassOf floor.now pass.old }
    ensures own { IsPassOf floor.now pass.new }
    ensures same { IsSame pass.old pass.new }
    ensures looked { HasLooked pass.old pass.new }
    ensures idle { OnOk end (active (reached (behind floor.now.opening pass.new.seen)) ≡ 0) }
{
    if end.is_err() {
        return;
    }
    'looks: for _ in rt.forever() {
        if floor.pending(rt, pass, MONITOR).pending.active == 0 {
            return;
        }
    }
    unreachable!()
}

// The history and the keeper of a run that has ended. The monitor's pass was joined before.
fn close_floor<K: Keeper>(
    floor: Floor<K>,
    pass: FloorPass<K>,
    status: u8,
    kept: Option<Report>,
) -> (Ran, K)
    requires own { IsPassOf floor pass }
    requires zero { pass.number ≡ 0 }
    requires all { length pass.joined ≡ pass.made }
    ensures status { result.0.status ≡ status }
    ensures log { result.0.log ≡ pass.seen }
    ensures kept { result.0.kept ≡ kept }
    ensures legal { IsLegal floor.opening.state pass.seen }
    ensures tables { HasTables (reached (behind floor.opening pass.seen)) (K.tables result.1) }
    ensures trail { HasTrail (behind floor.opening pass.seen) (telling K.tables K.trail floor.opening.found) (telling K.tables K.trail result.1) }
    ensures untold { K.trail floor.opening.keeper ≡ None → K.trail result.1 ≡ None }
    ensures risen { pass.mark ≢ 0 → raised (K.faults floor.opening.found) ≤ K.faults result.1 }
    ensures joined { HasOwn caller_of pass.seen pass.joined }
    ensures callers { (n : ℕ) → pass.made < n → own caller_of n pass.seen ≡ [] }
{
    match floor.close(pass) {
        Ok(Closed { log, keeper }) => (Ran { status, log, kept }, keeper),
        Err(_) => unreachable!(),
    }
}

impl<K: Keeper> Run<K> {
    ghost use Rattle.std.specs.Prelude.{◌≡◌, ◌≢◌, ◌≤◌, [], OnOk, None};
    ghost use Rattle.wm_law.specs.History.{IsLegal};
    ghost use Rattle.wm_law.specs.Pending.{active};
    ghost use Rattle.wm_floor.specs.History.{reached};
    ghost use Rattle.wm_floor.specs.Keeping.{telling};
    ghost use Rattle.wm_floor.specs.Stored.{HasTables};
    ghost use Rattle.wm_floor.specs.Trail.{HasTrail};
    ghost use Rattle.wm_floor.specs.Ledger.{behind};
    ghost use Rattle.wm_run.specs.Serving.{IsRunning, IsWhole};

    // Joins the monitor's pass, looks once more, and closes the floor.
    fn close<R: Wait>(self, rt: &R, end: Result<bool, Halt>) -> (Ran, K)
        requires ready { IsRunning self }
        requires made { self.session.made ≡ 1 }
        requires joined { self.session.joined ≡ [] }
        ensures status { result.0.status ≡ ended_status end }
        ensures whole { IsWhole self result.0.log }
        ensures kept { result.0.kept ≡ self.monitor.kept }
        ensures idle { OnOk end (active (reached (behind self.floor.opening result.0.log)) ≡ 0) }
        ensures legal { IsLegal self.floor.opening.state result.0.log }
        ensures tables { HasTables (reached (behind self.floor.opening result.0.log)) (K.tables result.1) }
        ensures trail { HasTrail (behind self.floor.opening result.0.log) (telling K.tables K.trail self.floor.opening.found) (telling K.tables K.trail result.1) }
        ensures untold { K.trail self.floor.opening.keeper ≡ None → K.trail result.1 ≡ None }
        ensures session_risen { self.session.mark ≢ 0 → raised (K.faults self.floor.opening.found) ≤ K.faults result.1 }
        ensures watch_risen { self.watch.mark ≢ 0 → raised (K.faults self.floor.opening.found) ≤ K.faults result.1 }
    {
        let Run {
            floor,
            mut session,
            watch,
            monitor,
        } = self;
        floor.join(&mut session, watch);
        await_idle(rt, &floor, &mut session, end);
        close_floor(floor, session, ended_status(end), monitor.kept)
    }
}

/// Runs over a keeper, and gives it back.
pub fn run_kept<I: Source, O: Sink, K: Keeper, P: Spawner, C: Clock, R: Wait>(
    rt: &R,
    alloc: Global,
    input: &mut I,
    out: &mut O,
    keeper: K,
    spawner: &mut P,
    clock: &mut C,
    settings: &Settings,
) -> (Ran, K)
    requires some { 1 ≤ settings.now.log_limit }
    requires most { settings.now.log_limit ≤ 1000000 }
    ensures begun { result.0.status ≡ 2 → ⊥ }
    ensures history { HasHistory settings.now.offset result.0.status result.0.log (telling K.tables K.trail keeper) (telling K.tables K.trail result.1)
        (RunTakes settings.now (I.left input.old) (I.left input.new) result.0.status result.0.log (O.written out.old) (O.written out.new)) }
    ensures callers { list_all is_of_run result.0.log ≡ true }
    ensures served { IsServed result.0.log (option_to_list result.0.kept) (P.asked spawner.old) (P.asked spawner.new) (P.told spawner.old) (P.told spawner.new) (P.misses spawner.old) (P.misses spawner.new) }
    ensures kept { result.0.status ≤ 1 → result.0.kept ≡ None }
    ensures read_fault { result.0.status ≡ 3 → raised (I.faults input.old) ≤ I.faults input.new }
    ensures write_fault { result.0.status ≡ 4 → raised (O.faults out.old) ≤ O.faults out.new }
    ensures keeper_fault { result.0.status ≡ 5 → raised (K.faults keeper) ≤ K.faults result.1 }
    ensures log_full { result.0.status ≡ 7 → settings.now.log_limit ≤ length result.0.log }
    ensures reported { result.0.status ≡ 7 → length result.0.log < 4000000 → result.0.kept ≡ None }
    ensures wait_fault { result.0.status ≡ 8 → raised (P.faults spawner.old) ≤ P.faults spawner.new }
    ensures bad_row { result.0.status ≡ 9 → HasBadRow settings.now.offset (K.tables keeper) (K.tables result.1) }
    ensures out_faults { O.faults out.old ≤ O.faults out.new }
    ensures statuses { IsRunStatus result.0.status }
{
    match Run::open(alloc, keeper, settings) {
        Ok(mut run) => {
            let end = run.serve(rt, alloc, input, out, spawner, clock, settings);
            run.close(rt, end)
        }
        Err((keeper, fault)) => (not_begun(alloc, open_status(&fault)), keeper),
    }
}
