// Making a call of a floor.
ghost use Rattle.std.specs.Prelude.{◌≡◌, ℕ, length, true, Ok, Err, IfOk, IfErr, OnOk, OnErr};
ghost use Rattle.wm_law.specs.Fit.{IsCall};
ghost use Rattle.wm_law.specs.History.{is_monitor_call};
ghost use Rattle.wm_floor.specs.History.{reached};
ghost use Rattle.wm_floor.specs.Limit.{limit_of};
ghost use Rattle.wm_floor.specs.Floor.{HasLooked, IsPassOf, IsSame, Waits};
ghost use Rattle.wm_floor.specs.Ledger.{behind};
ghost use Rattle.wm_floor.specs.Advance.{added, Advances, GoesOn};
ghost use Rattle.wm_floor.specs.MonitorCauses.{fault_of, IsCaused};
ghost use Rattle.wm_floor.specs.Idle.{IsCalledFor};
ghost use Rattle.wm_floor.specs.Made.{AreAt, IsMade};
ghost use Rattle.wm_floor.specs.Scene.{Scene};
ghost use Rattle.wm_floor.specs.Turned.{WasNotDue};

use crate::monitor_fault::MonitorFault;
use crate::{Answered, CallFault, Floor, FloorPass, Waiting};
use std::alloc::Global;
use std::sync::Wait;
use wm_base::Moment;
use wm_law::Call;
use wm_traits::{Clock, Keeper};

/// How many entries a part of a turn made, and what waits behind them.
#[derive(Clone, Copy)]
pub(crate) struct Progress {
    pub(crate) sent: u32,
    pub(crate) waiting: Waiting,
}

// The result of a call, as a monitor tells it.
fn told(was: Result<Answered, CallFault>) -> Result<Answered, MonitorFault>
    ensures ok { IfOk was (λ answered. result ≡ Ok answered) }
    ensures err { IfErr was (λ fault. result ≡ Err (fault_of fault)) }
{
    match was {
        Ok(answered) => Ok(answered),
        Err(CallFault::KeeperFault) => Err(MonitorFault::KeeperFault),
        Err(CallFault::LogFull(limit)) => Err(MonitorFault::LogFull(limit)),
        Err(CallFault::NoMemory) => Err(MonitorFault::NoMemory),
    }
}

/// Makes one call of a monitor, and tells a fault as a monitor's. An `Err` makes no entry.
pub(crate) fn enter<K: Keeper, R: Wait>(
    rt: &R,
    alloc: Global,
    floor: &Floor<K>,
    pass: &mut FloorPass<K>,
    call: Call,
    now: Moment,
) -> Result<Answered, MonitorFault>
    requires own { IsPassOf floor.now pass.old }
    requires fit { IsCall call }
    requires limit { (limit : ℕ) → limit_of call limit ≡ 4000000 }
    requires monitors { is_monitor_call call ≡ true }
    requires called_for { IsCalledFor pass.old.number (reached (behind floor.now.opening pass.old.seen)) now call }
    ensures part { GoesOn floor.now pass.old pass.new }
    ensures ok { IfOk result (IsMade call now pass.old pass.new) }
    ensures err { OnErr result (pass.new.mine ≡ pass.old.mine) }
    ensures cause { (faults : ℕ) → IfErr result (IsCaused faults faults pass.old.mark pass.new.mark pass.new.seen) }
{
    let was = floor.call(rt, alloc, pass, call, now);
    told(was)
}

/// What waits: as it did last, where no entry was made since, and else as it does now.
pub(crate) fn waiting_since<K: Keeper, R: Wait>(
    rt: &R,
    floor: &Floor<K>,
    pass: &mut FloorPass<K>,
    last: Waiting,
    sent: u32,
) -> Waiting
    requires own { IsPassOf floor.now pass.old }
    requires last { sent ≡ 0 → Waits floor.now pass.old last }
    ensures own { IsPassOf floor.now pass.new }
    ensures same { IsSame pass.old pass.new }
    ensures looked { HasLooked pass.old pass.new }
    ensures waits { Waits floor.now pass.new result }
{
    if sent == 0 {
        return last;
    }
    floor.waiting(rt, pass)
}

/// Lets the machine see the time, where something is due by now.
pub(crate) fn tick<K: Keeper, C: Clock, R: Wait>(
    rt: &R,
    alloc: Global,
    floor: &Floor<K>,
    pass: &mut FloorPass<K>,
    clock: &mut C,
    waiting: Waiting,
) -> Result<Progress, MonitorFault>
    requires own { IsPassOf floor.now pass.old }
    requires waits { Waits floor.now pass.old waiting }
    ensures part { (around : Scene) → Advances floor.now 0 1 pass.old pass.new around around }
    ensures sent { IfOk result (λ t. t.sent ≡ length (added pass.old pass.new)) }
    ensures waits { IfOk result (λ t. Waits floor.now pass.new t.waiting) }
    ensures moment { AreAt (C.coming clock.old) (added pass.old pass.new) }
    ensures due { OnOk result (length (added pass.old pass.new) ≡ 0 → WasNotDue floor.now pass.old pass.new (C.coming clock.old)) }
    ensures cause { (faults : ℕ) → IfErr result (IsCaused faults faults pass.old.mark pass.new.mark pass.new.seen) }
{
    let now = clock.now();
    match waiting.pending.next {
        Some(due) if due <= now => {
            enter(rt, alloc, floor, pass, Call::Tick, now)?;
            let waiting = floor.waiting(rt, pass);
            Ok(Progress { sent: 1, waiting })
        }
        _ => Ok(Progress { sent: 0, waiting }),
    }
}
