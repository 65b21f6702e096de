// What starts the jobs and reports how they ended, beside other callers.
use crate::calling::{Progress, enter, tick, waiting_since};
use crate::monitor_fault::MonitorFault;
use crate::report::Report;
use crate::{Floor, FloorPass, Waiting, asking};
use std::alloc::Global;
use std::sync::Wait;
use wm_base::{Asked, Moment, Serial};
use wm_law::{Call, Pending, Reply};
use wm_traits::{Clock, Keeper, Spawner};

/// The number of the pass of a run's monitor.
pub const MONITOR: u32 = 1;

/// How many Hands a turn makes at the most.
pub const MOST_HANDS: u32 = 256;

/// How many looks a turn makes at the most.
pub const MOST_LOOKS: u32 = 256;

/// A monitor, whose number is that of the pass with which it is called. It keeps the report that the floor didn't take, to send
/// it first in its next call, and the kill that failed, to try it again behind the report in its next turn.
#[derive(Clone, Copy)]
pub struct Monitor {
    pub kept: Option<Report>,
    pub failed_kill: Option<Serial>,
}

/// How many entries a call of a monitor made, and what waited as it looked last, behind so many entries of the history.
#[derive(Clone, Copy)]
pub struct Turned {
    pub sent: u32,
    pub at: u32,
    pub pending: Pending,
}

impl Turned {
    ghost use Rattle.std.specs.Prelude.{◌≡◌};

    // What is answered where this waited last.
    fn of(sent: u32, waiting: Waiting) -> Turned
        ensures sent { result.sent ≡ sent }
        ensures at { result.at ≡ waiting.at }
        ensures pending { result.pending ≡ waiting.pending }
    {
        Turned {
            sent,
            at: waiting.at,
            pending: waiting.pending,
        }
    }
}

impl Monitor {
    ghost use Rattle.std.specs.Prelude.{◌≡◌, ◌⊎◌, ℕ, ◌<◌, ◌≤◌, ◌+◌, ◌∷◌, [], List, None, Some, Ok, length, take, true, false, OnOk, OnErr, IfOk, IfErr, IfSome, option_to_list};
    ghost use Rattle.wm_base.specs.declared.job.Asked.TheVariants.{Kill};
    ghost use Rattle.wm_traits.specs.Told.{Grows, IsEmpty};
    ghost use Rattle.wm_law.specs.declared.call.Entry.{Entry};
    ghost use Rattle.wm_law.specs.History.{order_in};
    ghost use Rattle.wm_law.specs.Pending.{orders_left, pending};
    ghost use Rattle.wm_floor.specs.History.{reached};
    ghost use Rattle.wm_floor.specs.Asking.{AsksFirst};
    ghost use Rattle.wm_floor.specs.Monitor.{as_reports, hands_of};
    ghost use Rattle.wm_floor.specs.Floor.{IsPassOf, Waits};
    ghost use Rattle.wm_floor.specs.Ledger.{behind};
    ghost use Rattle.wm_floor.specs.Advance.{added, Advances, AdvancesFor, HasAsked, HasReported, MonitorAdvances};
    ghost use Rattle.wm_floor.specs.MonitorCauses.{IsCaused};
    ghost use Rattle.wm_floor.specs.Made.{AreAt};
    ghost use Rattle.wm_floor.specs.Scene.{scene, spawner_seen, IsAskedOrKept, IsClear, Spawning};
    ghost use Rattle.wm_floor.specs.Turned.{HadNothing, WaitedAt};

    /// A monitor that keeps nothing.
    pub fn new() -> Monitor
        ensures clear { IsClear result }
    {
        Monitor {
            kept: None,
            failed_kill: None,
        }
    }

    // Sends the report that is kept, which the floor may fail to take. It answers how many entries it made.
    fn send_kept<K: Keeper, C: Clock, R: Wait>(
        &mut self,
        rt: &R,
        alloc: Global,
        floor: &Floor<K>,
        pass: &mut FloorPass<K>,
        clock: &mut C,
    ) -> Result<u32, MonitorFault>
        requires own { IsPassOf floor.now pass.old }
        ensures part { (s : Spawning) → Advances floor.now 0 1 pass.old pass.new (scene self.old s) (scene self.new s) }
        ensures sent { IfOk result (λ n. n ≡ length (added pass.old pass.new)) }
        ensures some { OnOk result (IfSome self.old.kept (λ _. 1 ≤ length (added pass.old pass.new))) }
        ensures moment { AreAt (C.coming clock.old) (added pass.old pass.new) }
        ensures still { IfOk result (λ n. n ≡ 0 → pass.new ≡ pass.old) }
        ensures kept { OnOk result (self.new.kept ≡ None) }
        ensures kill { self.new.failed_kill ≡ self.old.failed_kill }
        ensures unread { self.old.kept ≡ None → clock.new ≡ clock.old }
        ensures cause { (faults : ℕ) → IfErr result (IsCaused faults faults pass.old.mark pass.new.mark pass.new.seen) }
    {
        let Some(report) = self.kept else {
            return Ok(0);
        };
        let now = clock.now();
        enter(rt, alloc, floor, pass, report.call(), now)?;
        self.kept = None;
        Ok(1)
    }

    // Asks for a kill, which is kept where it fails.
    fn kill<P: Spawner>(&mut self, spawner: &mut P, serial: Serial) -> Result<(), MonitorFault>
        ensures asked { Grows (P.asked spawner.old) (P.asked spawner.new) (Kill serial ∷ []) }
        ensures told { Grows (as_reports (P.told spawner.old)) (as_reports (P.told spawner.new)) [] }
        ensures misses { P.misses spawner.new ≡ P.misses spawner.old }
        ensures done { OnOk result (self.new.failed_kill ≡ None) }
        ensures failed { OnErr result (self.new.failed_kill ≡ Some serial) }
        ensures kept { self.new.kept ≡ self.old.kept }
        ensures faults { P.faults spawner.old ≤ P.faults spawner.new }
        ensures cause { (mark : ℕ) (seen : List Entry) → IfErr result (IsCaused (P.faults spawner.old) (P.faults spawner.new) mark mark seen) }
    {
        self.failed_kill = Some(serial);
        asking::kill(spawner, serial)?;
        self.failed_kill = None;
        Ok(())
    }

    // Tries the kill that failed again.
    fn retry<P: Spawner>(&mut self, spawner: &mut P) -> Result<(), MonitorFault>
        ensures asked { HasAsked [] (scene self.old (spawner_seen P.asked P.told P.misses P.faults spawner.old)) (scene self.new (spawner_seen P.asked P.told P.misses P.faults spawner.new)) }
        ensures reported { HasReported [] (scene self.old (spawner_seen P.asked P.told P.misses P.faults spawner.old)) (scene self.new (spawner_seen P.asked P.told P.misses P.faults spawner.new)) }
        ensures again { IfSome self.old.failed_kill (λ serial. Grows (P.asked spawner.old) (P.asked spawner.new) (Kill serial ∷ [])) }
        ensures quiet { self.old.failed_kill ≡ None → spawner.new ≡ spawner.old }
        ensures done { OnOk result (self.new.failed_kill ≡ None) }
        ensures kept { self.new.kept ≡ self.old.kept }
        ensures faults { P.faults spawner.old ≤ P.faults spawner.new }
        ensures cause { (mark : ℕ) (seen : List Entry) → IfErr result (IsCaused (P.faults spawner.old) (P.faults spawner.new) mark mark seen) }
    {
        let Some(serial) = self.failed_kill else {
            return Ok(());
        };
        self.kill(spawner, serial)?;
        Ok(())
    }

    // Asks what a reply orders, and sends the report of a start. It answers how many entries it made.
    fn follow<K: Keeper, P: Spawner, C: Clock, R: Wait>(
        &mut self,
        rt: &R,
        alloc: Global,
        floor: &Floor<K>,
        pass: &mut FloorPass<K>,
        spawner: &mut P,
        clock: &mut C,
        reply: &Reply,
    ) -> Result<u32, MonitorFault>
        requires own { IsPassOf floor.now pass.old }
        requires clear { IsClear self.old }
        ensures part { AdvancesFor floor.now 0 1 (option_to_list (order_in reply.now)) pass.old pass.new (scene self.old (spawner_seen P.asked P.told P.misses P.faults spawner.old)) (scene self.new (spawner_seen P.asked P.told P.misses P.faults spawner.new)) }
        ensures sent { IfOk result (λ n. n ≡ length (added pass.old pass.new)) }
        ensures clear { OnOk result (IsClear self.new) }
        ensures cause { IfErr result (IsCaused (P.faults spawner.old) (P.faults spawner.new) pass.old.mark pass.new.mark pass.new.seen) }
    {
        match reply.order() {
            None => Ok(0),
            Some(Asked::Kill(serial)) => {
                self.kill(spawner, *serial)?;
                Ok(0)
            }
            Some(Asked::Start(order)) => {
                self.kept = Some(asking::start(spawner, order));
                let sent = self.send_kept(rt, alloc, floor, pass, clock)?;
                Ok(sent)
            }
        }
    }

    // Does what earlier calls left: the kept report and the kill that failed.
    fn settle<K: Keeper, P: Spawner, C: Clock, R: Wait>(
        &mut self,
        rt: &R,
        alloc: Global,
        floor: &Floor<K>,
        pass: &mut FloorPass<K>,
        spawner: &mut P,
        clock: &mut C,
        last: Waiting,
    ) -> Result<Progress, MonitorFault>
        requires own { IsPassOf floor.now pass.old }
        requires waits { Waits floor.now pass.old last }
        ensures part { MonitorAdvances P.asked P.told P.misses P.faults floor.now 0 1 pass.old self.old spawner.old pass.new self.new spawner.new }
        ensures sent { IfOk result (λ t. t.sent ≡ length (added pass.old pass.new)) }
        ensures waits { IfOk result (λ t. Waits floor.now pass.new t.waiting) }
        ensures clear { OnOk result (IsClear self.new) }
        ensures some { OnOk result (IfSome self.old.kept (λ _. 1 ≤ length (added pass.old pass.new))) }
        ensures quiet { self.old.failed_kill ≡ None → spawner.new ≡ spawner.old }
        ensures unread { self.old.kept ≡ None → clock.new ≡ clock.old }
        ensures kill { IsAskedOrKept self.old.failed_kill (P.asked spawner.old) (P.asked spawner.new) self.new.failed_kill }
        ensures again { OnOk result (IfSome self.old.failed_kill (λ serial. AsksFirst (Kill serial) (P.asked spawner.old) (P.asked spawner.new))) }
        ensures cause { IfErr result (IsCaused (P.faults spawner.old) (P.faults spawner.new) pass.old.mark pass.new.mark pass.new.seen) }
    {
        let reported = self.send_kept(rt, alloc, floor, pass, clock)?;
        self.retry(spawner)?;
        let waiting = waiting_since(rt, floor, pass, last, reported);
        Ok(Progress {
            sent: reported,
            waiting,
        })
    }

    // Makes one Hand and does its order. It answers how many entries it made.
    fn hand<K: Keeper, P: Spawner, C: Clock, R: Wait>(
        &mut self,
        rt: &R,
        alloc: Global,
        floor: &Floor<K>,
        pass: &mut FloorPass<K>,
        spawner: &mut P,
        clock: &mut C,
    ) -> Result<u32, MonitorFault>
        requires own { IsPassOf floor.now pass.old }
        requires clear { IsClear self.old }
        requires called_for { 1 ≤ orders_left (reached (behind floor.now.opening pass.old.seen)) pass.old.number }
        ensures part { MonitorAdvances P.asked P.told P.misses P.faults floor.now 1 0 pass.old self.old spawner.old pass.new self.new spawner.new }
        ensures hand { OnOk result (1 ≤ hands_of (added pass.old pass.new)) }
        ensures moment { AreAt (C.coming clock.old) (take 1 (added pass.old pass.new)) }
        ensures sent { IfOk result (λ n. n ≡ length (added pass.old pass.new)) }
        ensures clear { OnOk result (IsClear self.new) }
        ensures cause { IfErr result (IsCaused (P.faults spawner.old) (P.faults spawner.new) pass.old.mark pass.new.mark pass.new.seen) }
    {
        let now = clock.now();
        let answered = enter(rt, alloc, floor, pass, Call::Hand, now)?;
        let sent = self.follow(rt, alloc, floor, pass, spawner, clock, &answered.reply)?;
        Ok(sent + 1)
    }

    // Makes the calls of what Hand orders, while there are orders, of which what waits tells. It answers what waited behind the last
    // one.
    fn hands<K: Keeper, P: Spawner, C: Clock, R: Wait>(
        &mut self,
        rt: &R,
        alloc: Global,
        floor: &Floor<K>,
        pass: &mut FloorPass<K>,
        spawner: &mut P,
        clock: &mut C,
        first: Waiting,
    ) -> Result<Turned, MonitorFault>
        requires own { IsPassOf floor.now pass.old }
        requires clear { IsClear self.old }
        requires waits { Waits floor.now pass.old first }
        ensures part { MonitorAdvances P.asked P.told P.misses P.faults floor.now 256 0 pass.old self.old spawner.old pass.new self.new spawner.new }
        ensures sent { IfOk result (λ turned. turned.sent ≡ length (added pass.old pass.new)) }
        ensures at { IfOk result (λ turned. turned.at ≡ length pass.new.seen) }
        ensures pending { IfOk result (λ turned. turned.pending ≡ pending (reached (behind floor.now.opening pass.new.seen)) pass.old.number) }
        ensures all { IfOk result (λ turned. (turned.pending.orders ≡ 0) ⊎ (hands_of (added pass.old pass.new) ≡ 256)) }
        ensures quiet { OnOk result (length (added pass.old pass.new) ≡ 0 → P.reporting spawner.new ≡ P.reporting spawner.old) }
        ensures clear { OnOk result (IsClear self.new) }
        ensures cause { IfErr result (IsCaused (P.faults spawner.old) (P.faults spawner.new) pass.old.mark pass.new.mark pass.new.seen) }
    {
        let mut waiting = first;
        let mut sent = 0;
        'hands: for _ in 0..MOST_HANDS {
            if waiting.pending.orders == 0 {
                return Ok(Turned::of(sent, waiting));
            }
            sent += self.hand(rt, alloc, floor, pass, spawner, clock)?;
            waiting = floor.waiting(rt, pass);
        }
        Ok(Turned::of(sent, waiting))
    }

    // Looks once for a report, and makes its call. It answers whether there was one.
    fn look<K: Keeper, P: Spawner, C: Clock, R: Wait>(
        &mut self,
        rt: &R,
        alloc: Global,
        floor: &Floor<K>,
        pass: &mut FloorPass<K>,
        spawner: &mut P,
        clock: &mut C,
    ) -> Result<bool, MonitorFault>
        requires own { IsPassOf floor.now pass.old }
        requires clear { IsClear self.old }
        ensures part { MonitorAdvances P.asked P.told P.misses P.faults floor.now 0 1 pass.old self.old spawner.old pass.new self.new spawner.new }
        ensures none { result ≡ Ok false → IsEmpty (P.reporting spawner.old) }
        ensures none_sent { result ≡ Ok false → length (added pass.old pass.new) ≡ 0 }
        ensures none_told { result ≡ Ok false → Grows (as_reports (P.told spawner.old)) (as_reports (P.told spawner.new)) [] }
        ensures sent { result ≡ Ok true → length (added pass.old pass.new) ≡ 1 }
        ensures moment { AreAt (C.coming clock.old) (added pass.old pass.new) }
        ensures clear { OnOk result (IsClear self.new) }
        ensures cause { IfErr result (IsCaused (P.faults spawner.old) (P.faults spawner.new) pass.old.mark pass.new.mark pass.new.seen) }
    {
        let Some(report) = asking::look(spawner)? else {
            return Ok(false);
        };
        self.kept = Some(report);
        self.send_kept(rt, alloc, floor, pass, clock)?;
        Ok(true)
    }

    // Makes the calls of the reports that are there. It answers how many there were.
    fn looks<K: Keeper, P: Spawner, C: Clock, R: Wait>(
        &mut self,
        rt: &R,
        alloc: Global,
        floor: &Floor<K>,
        pass: &mut FloorPass<K>,
        spawner: &mut P,
        clock: &mut C,
    ) -> Result<u32, MonitorFault>
        requires own { IsPassOf floor.now pass.old }
        requires clear { IsClear self.old }
        ensures part { MonitorAdvances P.asked P.told P.misses P.faults floor.now 0 256 pass.old self.old spawner.old pass.new self.new spawner.new }
        ensures sent { IfOk result (λ n. n ≡ length (added pass.old pass.new)) }
        ensures all { IfOk result (λ n. n ≡ 0 → IsEmpty (P.reporting spawner.old)) }
        ensures last { IfOk result (λ n. (n ≡ 256) ⊎
            ((last : P) × IsEmpty (P.reporting last) × Grows (as_reports (P.told last)) (as_reports (P.told spawner.new)) [])) }
        ensures clear { OnOk result (IsClear self.new) }
        ensures cause { IfErr result (IsCaused (P.faults spawner.old) (P.faults spawner.new) pass.old.mark pass.new.mark pass.new.seen) }
    {
        'looks: for sent in 0..MOST_LOOKS {
            if !self.look(rt, alloc, floor, pass, spawner, clock)? {
                return Ok(sent);
            }
        }
        Ok(MOST_LOOKS)
    }

    /// One turn: what earlier calls left, the time where something is due, at most 256 Hands with their orders, and at most 256
    /// looks with their reports. It begins with what waits behind all that the pass has seen; what it answers as waiting waited behind the
    /// last Hand. It may wait for other callers.
    pub fn turn<K: Keeper, P: Spawner, C: Clock, R: Wait>(
        &mut self,
        rt: &R,
        alloc: Global,
        floor: &Floor<K>,
        pass: &mut FloorPass<K>,
        spawner: &mut P,
        clock: &mut C,
        waiting: Waiting,
    ) -> Result<Turned, MonitorFault>
        requires own { IsPassOf floor.now pass.old }
        requires waits { Waits floor.now pass.old waiting }
        ensures part { MonitorAdvances P.asked P.told P.misses P.faults floor.now 256 258 pass.old self.old spawner.old pass.new self.new spawner.new }
        ensures clear { OnOk result (IsClear self.new) }
        ensures kill { IsAskedOrKept self.old.failed_kill (P.asked spawner.old) (P.asked spawner.new) self.new.failed_kill }
        ensures again { OnOk result (IfSome self.old.failed_kill (λ serial. AsksFirst (Kill serial) (P.asked spawner.old) (P.asked spawner.new))) }
        ensures sent { IfOk result (λ turned. turned.sent ≡ length (added pass.old pass.new)) }
        ensures waited { IfOk result (λ turned. WaitedAt floor.now pass.old pass.new turned.at turned.pending) }
        ensures handed { IfOk result (λ turned. (turned.pending.orders ≡ 0) ⊎ (hands_of (added pass.old pass.new) ≡ 256)) }
        ensures idle { IfOk result (λ turned. turned.sent ≡ 0 → self.old.failed_kill ≡ None →
            HadNothing floor.now pass.old pass.new self.old.kept (C.coming clock.old) (P.reporting spawner.old)) }
        ensures cause { IfErr result (IsCaused (P.faults spawner.old) (P.faults spawner.new) pass.old.mark pass.new.mark pass.new.seen) }
    {
        let settled = self.settle(rt, alloc, floor, pass, spawner, clock, waiting)?;
        let ticked = tick(rt, alloc, floor, pass, clock, settled.waiting)?;
        let handed = self.hands(rt, alloc, floor, pass, spawner, clock, ticked.waiting)?;
        let looked = self.looks(rt, alloc, floor, pass, spawner, clock)?;
        Ok(Turned {
            sent: settled.sent + ticked.sent + handed.sent + looked,
            at: handed.at,
            pending: handed.pending,
        })
    }

    /// Sends the kept report, waits for a report, until the moment at the latest where one is given, and makes its call. A kill
    /// that failed is left to the next turn. It may wait for other callers.
    pub fn wait<K: Keeper, P: Spawner, C: Clock, R: Wait>(
        &mut self,
        rt: &R,
        alloc: Global,
        floor: &Floor<K>,
        pass: &mut FloorPass<K>,
        spawner: &mut P,
        clock: &mut C,
        until: Option<Moment>,
    ) -> Result<Turned, MonitorFault>
        requires own { IsPassOf floor.now pass.old }
        ensures part { MonitorAdvances P.asked P.told P.misses P.faults floor.now 0 2 pass.old self.old spawner.old pass.new self.new spawner.new }
        ensures report { OnOk result (until ≡ None → IsEmpty (P.out spawner.old) ⊎ (1 ≤ length (added pass.old pass.new))) }
        ensures awaited { OnOk result (Grows (P.awaited spawner.old) (P.awaited spawner.new) (until ∷ [])) }
        ensures kept { OnOk result (self.new.kept ≡ None) }
        ensures kill { self.new.failed_kill ≡ self.old.failed_kill }
        ensures sent { IfOk result (λ turned. turned.sent ≡ length (added pass.old pass.new)) }
        ensures at { IfOk result (λ turned. turned.at ≡ length pass.new.seen) }
        ensures waited { IfOk result (λ turned. WaitedAt floor.now pass.old pass.new turned.at turned.pending) }
        ensures cause { IfErr result (IsCaused (P.faults spawner.old) (P.faults spawner.new) pass.old.mark pass.new.mark pass.new.seen) }
    {
        let first = self.send_kept(rt, alloc, floor, pass, clock)?;
        let report = asking::wait(rt, spawner, until)?;
        self.kept = report;
        let second = self.send_kept(rt, alloc, floor, pass, clock)?;
        let monitor = pass.number();
        let waiting = floor.pending(rt, pass, monitor);
        Ok(Turned::of(first + second, waiting))
    }
}
