// The shared floor.
ghost use Rattle.std.specs.Prelude.{◌≡◌, ◌≢◌, ◌-◌, ◌<◌, ◌≤◌, ◌↔◌, [], length, slice_get, None, Some, IfOk, IfErr, IfSome, IsOk, IsSome};
ghost use Rattle.wm_traits.specs.Cause.{raised};
ghost use Rattle.wm_law.specs.Fit.{IsCall};
ghost use Rattle.wm_law.specs.History.{IsLegal};
ghost use Rattle.wm_law.specs.Pending.{pending};
ghost use Rattle.wm_turn.specs.Passed.{begun, child, ended, fresh, joining, own, parent, Grows, HasAll, HasOwn, StartsWith};
ghost use Rattle.wm_floor.specs.History.{reached};
ghost use Rattle.wm_floor.specs.Keeping.{telling, IsOpened};
ghost use Rattle.wm_floor.specs.OpenFaults.{IsCounted, NamesBad};
ghost use Rattle.wm_floor.specs.Stored.{HasTables};
ghost use Rattle.wm_floor.specs.Trail.{HasTrail};
ghost use Rattle.wm_views.specs.Views.{shown};
ghost use Rattle.wm_floor.specs.Causes.{HasMarkCause};
ghost use Rattle.wm_floor.specs.Floor.{HasLooked, IsCalled, IsLeftOrOpened, IsPassOf, IsSame, Waits};
ghost use Rattle.wm_floor.specs.Ledger.{behind, caller_of};

use crate::answer::{Answered, View, Waiting};
use crate::ledger::{Closed, Ledger};
use crate::log::Log;
use crate::{CallFault, OpenFault};
use std::alloc::Global;
use std::marker::Model;
use std::snapshot::Snapshot;
use std::sync::Wait;
use wm_base::{Moment, NoMemory};
use wm_core::Setup;
use wm_law::{Ask, Call};
use wm_traits::Keeper;
use wm_turn::{Pass, Turnstile};

/// A caller's leave to call a floor, known by its number.
pub type FloorPass<K> = Pass<Ledger<K>>;

/// The machine with its keeper and one history, which any number of callers share. A contract sees which floor it is and what
/// it was opened with.
pub struct Floor<K: Keeper> {
    turnstile: Turnstile<Ledger<K>>,
    opened: Snapshot<Ledger<K>>,
}

impl<K: Keeper> Model for Floor<K> {
    ghost use Rattle.wm_floor.specs.Floor.{Floored};

    ghost Value = { Floored K };

    ghost view = { λ f. record { turnstile = f.turnstile; opening = f.opened.value.opening } };
}

impl<K: Keeper> Floor<K> {
    /// The machine of the rows that a keeper has, with no history, and pass 0. It takes users' commands while there are fewer
    /// entries than the limit. An `Err` hands the keeper back, with its rows as they were, or, where there was no memory for
    /// the place that callers take turns with, with those of the opened state.
    pub fn open(
        alloc: Global,
        keeper: K,
        setup: &Setup,
        limit: u32,
    ) -> Result<(Floor<K>, FloorPass<K>), (K, OpenFault)>
        requires some { 1 ≤ limit }
        requires most { limit ≤ 1000000 }
        ensures ok { IfOk result (λ made. IsOpened setup.now.offset made.0.opening.state (telling K.tables K.trail keeper) (telling K.tables K.trail made.0.opening.keeper)) }
        ensures ok_faults { IfOk result (λ made. K.faults made.0.opening.keeper ≡ K.faults keeper) }
        ensures found { IfOk result (λ made. made.0.opening.found ≡ keeper) }
        ensures limit { IfOk result (λ made. made.0.opening.limit ≡ limit) }
        ensures pass { IfOk result (λ made. made.1 ≡ fresh made.0.turnstile 0 (Some made.0.opening) []) }
        ensures own { IfOk result (λ made. IsPassOf made.0 made.1) }
        ensures err { IfErr result (λ back. IsLeftOrOpened setup.now.offset (telling K.tables K.trail keeper) (telling K.tables K.trail back.0) back.1) }
        ensures bad { IfErr result (λ back. NamesBad setup.now.offset (K.tables keeper) back.1) }
        ensures faults { IfErr result (λ back. IsCounted (K.faults keeper) (K.faults back.0) back.1) }
    {
        let ledger = Ledger::open(alloc, keeper, setup, limit)?;
        let opened = Snapshot::of(&ledger);
        match Turnstile::new(alloc, ledger) {
            Ok((turnstile, pass)) => Ok((Floor { turnstile, opened }, pass)),
            Err((ledger, _)) => {
                let Closed { log, keeper } = ledger.close();
                drop(log);
                Err((keeper, OpenFault::NoMemory))
            }
        }
    }

    // Waits for the pass's turn and takes the ledger.
    fn enter<R: Wait>(&self, rt: &R, pass: &mut FloorPass<K>) -> Ledger<K>
        requires { IsPassOf self.now pass.old }
        ensures pass { pass.new ≡ begun result.log result.misses pass.old }
        ensures front { StartsWith result.log pass.old.seen }
        ensures opening { result.opening ≡ self.now.opening }
    {
        self.turnstile.enter(rt, pass)
    }

    // Gives the ledger back and ends the turn, and tells what the pass then knows.
    fn leave(&self, pass: &mut FloorPass<K>, ledger: Ledger<K>)
        requires own { pass.old.turnstile ≡ self.now.turnstile }
        requires turn { IsSome pass.old.turn }
        requires opening { pass.old.opening ≡ Some ledger.opening }
        requires entries { Grows caller_of pass.old.number pass.old.seen ledger.log }
        requires mark { IfSome pass.old.turn (λ before. before ≤ ledger.misses) }
        ensures pass { pass.new ≡ ended ledger.log ledger.misses pass.old }
        ensures mine { pass.new.mine ≡ own caller_of pass.new.number pass.new.seen }
        ensures legal { IsLegal ledger.opening.state ledger.log }
    {
        let _count = ledger.len();
        ledger.recall();
        self.turnstile.leave(pass, ledger);
        self.turnstile.recall(pass);
    }

    /// Makes one call of a pass, whose rows are kept before its entry stands in the history, and tells the entry's place and
    /// its reply. An `Err` makes no entry, and leaves the state and the rows. It may wait for other callers.
    pub fn call<R: Wait>(
        &self,
        rt: &R,
        alloc: Global,
        pass: &mut FloorPass<K>,
        call: Call,
        now: Moment,
    ) -> Result<Answered, CallFault>
        requires own { IsPassOf self.now pass.old }
        requires fit { IsCall call }
        ensures own { IsPassOf self.now pass.new }
        ensures same { IsSame pass.old pass.new }
        ensures called { IsCalled self.now.opening call now pass.old pass.new result }
        ensures cause { HasMarkCause pass.old.mark pass.new.mark result }
    {
        let mut ledger = self.enter(rt, pass);
        let result = ledger.call(alloc, pass.number(), call, now);
        self.leave(pass, ledger);
        result
    }

    /// The history, which the pass has then seen. While it is made, which takes a time for each part of 1,024 entries and for
    /// each entry behind these, the others wait. It may wait itself.
    pub fn log<R: Wait>(
        &self,
        rt: &R,
        alloc: Global,
        pass: &mut FloorPass<K>,
    ) -> Result<Log, NoMemory>
        requires own { IsPassOf self.now pass.old }
        ensures own { IsPassOf self.now pass.new }
        ensures same { IsSame pass.old pass.new }
        ensures looked { HasLooked pass.old pass.new }
        ensures log { IfOk result (λ log. log ≡ pass.new.seen) }
    {
        let ledger = self.enter(rt, pass);
        let log = ledger.log(alloc);
        self.leave(pass, ledger);
        log
    }

    /// What a reading command shows of the state, and after how many entries. The pass has then seen these. Of the history and of
    /// what waits it shows that there is no view: `log` and `pending` show these. It may wait.
    pub fn read<R: Wait>(
        &self,
        rt: &R,
        alloc: Global,
        pass: &mut FloorPass<K>,
        ask: &Ask,
    ) -> Result<View, NoMemory>
        requires own { IsPassOf self.now pass.old }
        ensures own { IsPassOf self.now pass.new }
        ensures same { IsSame pass.old pass.new }
        ensures looked { HasLooked pass.old pass.new }
        ensures at { IfOk result (λ view. view.at ≡ length pass.new.seen) }
        ensures shown { IfOk result (λ view. view.shown ≡ shown (reached (behind self.now.opening pass.new.seen)) ask.now) }
    {
        let ledger = self.enter(rt, pass);
        let at = ledger.len();
        let shown = ledger.view(alloc, ask);
        self.leave(pass, ledger);
        Ok(View { at, shown: shown? })
    }

    /// What waits for a monitor, known by the number of its pass, and after how many entries. The pass has then seen these. It
    /// takes no memory. It may wait.
    pub fn pending<R: Wait>(&self, rt: &R, pass: &mut FloorPass<K>, monitor: u32) -> Waiting
        requires own { IsPassOf self.now pass.old }
        ensures own { IsPassOf self.now pass.new }
        ensures same { IsSame pass.old pass.new }
        ensures looked { HasLooked pass.old pass.new }
        ensures at { result.at ≡ length pass.new.seen }
        ensures pending { result.pending ≡ pending (reached (behind self.now.opening pass.new.seen)) monitor }
    {
        let ledger = self.enter(rt, pass);
        let at = ledger.len();
        let pending = ledger.pending(monitor);
        self.leave(pass, ledger);
        Waiting { at, pending }
    }

    /// What waits for the monitor of the pass's own number, as `pending` tells it.
    pub fn waiting<R: Wait>(&self, rt: &R, pass: &mut FloorPass<K>) -> Waiting
        requires own { IsPassOf self.now pass.old }
        ensures own { IsPassOf self.now pass.new }
        ensures same { IsSame pass.old pass.new }
        ensures looked { HasLooked pass.old pass.new }
        ensures waits { Waits self.now pass.new result }
    {
        let monitor = pass.number();
        self.pending(rt, pass, monitor)
    }

    /// Makes the pass of the next number, which has seen what pass 0 has and has no entry.
    pub fn split(&self, pass: &mut FloorPass<K>) -> Result<FloorPass<K>, NoMemory>
        requires own { IsPassOf self.now pass.old }
        requires zero { pass.old.number ≡ 0 }
        requires room { pass.old.made < 4294967295 }
        ensures made { IfOk result (λ made. made ≡ child pass.old) }
        ensures pass { IfOk result (λ _. pass.new ≡ parent pass.old) }
        ensures own { IsPassOf self.now pass.new }
        ensures other { IfOk result (λ made. IsPassOf self.now made) }
        ensures ok { IsOk result }
    {
        let mut made = self.turnstile.split(pass)?;
        self.turnstile.recall(&mut made);
        Ok(made)
    }

    /// Takes a pass back: pass 0 has then seen the longer history and has the greater mark, and keeps the other's number and
    /// entries.
    pub fn join(&self, pass: &mut FloorPass<K>, other: FloorPass<K>)
        requires own { IsPassOf self.now pass.old }
        requires others { IsPassOf self.now other }
        requires zero { pass.old.number ≡ 0 }
        ensures own { IsPassOf self.now pass.new }
        ensures pass { pass.new ≡ joining other pass.old }
        ensures seen { StartsWith pass.new.seen pass.old.seen }
        ensures told { StartsWith pass.new.seen other.seen }
    {
        self.turnstile.join(pass, other);
        self.turnstile.recall(pass);
    }

    /// The entries and the keeper, once all passes were joined to pass 0, which has then seen the whole history. Else all comes
    /// back as it was.
    pub fn close(self, pass: FloorPass<K>) -> Result<Closed<K>, (Floor<K>, FloorPass<K>)>
        requires own { IsPassOf self pass }
        requires zero { pass.number ≡ 0 }
        ensures back { IsOk result ↔ (length pass.joined ≡ pass.made) }
        ensures err { IfErr result (λ back. (back.0 ≡ self) × (back.1 ≡ pass)) }
        ensures log { IfOk result (λ closed. closed.log ≡ pass.seen) }
        ensures legal { IsLegal self.opening.state pass.seen }
        ensures tables { IfOk result (λ closed. HasTables (reached (behind self.opening pass.seen)) (K.tables closed.keeper)) }
        ensures trail { IfOk result (λ closed. HasTrail (behind self.opening pass.seen) (telling K.tables K.trail self.opening.found) (telling K.tables K.trail closed.keeper)) }
        ensures untold { IfOk result (λ closed. K.trail self.opening.keeper ≡ None → K.trail closed.keeper ≡ None) }
        ensures later { IfOk result (λ closed. K.faults self.opening.found ≤ K.faults closed.keeper) }
        ensures risen { IfOk result (λ closed. pass.mark ≢ 0 → raised (K.faults self.opening.found) ≤ K.faults closed.keeper) }
        ensures joined { IfOk result (λ _. HasOwn caller_of pass.seen pass.joined) }
        ensures all { IfOk result (λ _. HasAll caller_of pass.seen pass.made pass.joined) }
    {
        let Floor { turnstile, opened } = self;
        match turnstile.close(pass) {
            Ok(ledger) => Ok(ledger.close()),
            Err((turnstile, pass)) => Err((Floor { turnstile, opened }, pass)),
        }
    }
}
