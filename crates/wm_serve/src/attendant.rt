// A monitor's thread: it starts jobs, ends them and reports their ends, until nothing is left to do.
ghost use Rattle.std.specs.Prelude.{◌≡◌, IfErr, IfSome, None, OnOk};
ghost use Rattle.wm_floor.specs.Floor.{IsPassOf};
ghost use Rattle.wm_floor.specs.MonitorCauses.{IsCaused};
ghost use Rattle.wm_floor.specs.Attends.{MonitorAttends};

use crate::board::Board;
use std::alloc::Global;
use std::sync::Wait;
use wm_base::Moment;
use wm_floor::{Floor, FloorPass, Monitor, MonitorFault, Turned};
use wm_traits::{Clock, Keeper, Spawner};

// Until when a monitor waits: the moment at which something is due next, but a second at the most, since others give orders too.
pub(crate) fn wait_until(now: Moment, next: Option<Moment>) -> Moment {
    let second = if now.get() < Moment::MAX {
        Moment::new(now.get() + 1)
    } else {
        now
    };
    match next {
        Some(next) if next < second => next,
        _ => second,
    }
}

/// One turn of a monitor, which begins with a look at what waits.
pub(crate) fn look_and_turn<K: Keeper, P: Spawner, C: Clock, R: Wait>(
    rt: &R,
    alloc: Global,
    floor: &Floor<K>,
    pass: &mut FloorPass<K>,
    monitor: &mut Monitor,
    spawner: &mut P,
    clock: &mut C,
) -> Result<Turned, MonitorFault>
    requires own { IsPassOf floor.now pass.old }
    ensures own { IsPassOf floor.now pass.new }
    ensures part { MonitorAttends P.asked P.told P.misses P.faults floor.now pass.old monitor.old spawner.old pass.new monitor.new spawner.new }
    ensures told { OnOk result (monitor.new.kept ≡ None) }
    ensures cause { IfErr result (IsCaused (P.faults spawner.old) (P.faults spawner.new) pass.old.mark pass.new.mark pass.new.seen) }
{
    let waiting = floor.waiting(rt, pass);
    let turned = monitor.turn(rt, alloc, floor, pass, spawner, clock, waiting)?;
    Ok(turned)
}

// One turn, and a wait where it made no entry. It answers whether nothing is left to do, or another thread has stopped by a
// fault.
fn turn_once<K: Keeper, P: Spawner, C: Clock, R: Wait>(
    rt: &R,
    alloc: Global,
    floor: &Floor<K>,
    pass: &mut FloorPass<K>,
    monitor: &mut Monitor,
    spawner: &mut P,
    clock: &mut C,
    board: &Board,
) -> Result<bool, MonitorFault>
    requires own { IsPassOf floor.now pass.old }
    ensures part { MonitorAttends P.asked P.told P.misses P.faults floor.now pass.old monitor.old spawner.old pass.new monitor.new spawner.new }
    ensures told { OnOk result (monitor.new.kept ≡ None) }
    ensures cause { IfErr result (IsCaused (P.faults spawner.old) (P.faults spawner.new) pass.old.mark pass.new.mark pass.new.seen) }
{
    let turned = look_and_turn(rt, alloc, floor, pass, monitor, spawner, clock)?;
    if board.is_stopped() {
        return Ok(true);
    }
    if turned.sent > 0 {
        return Ok(false);
    }
    if board.is_left() && turned.pending.busy == 0 {
        return Ok(true);
    }
    let until = wait_until(clock.now(), turned.pending.next);
    monitor.wait(rt, alloc, floor, pass, spawner, clock, Some(until))?;
    Ok(false)
}

/// Makes turns and waits until no worker is at work and no job but prestart jobs is active, or another thread has stopped by a
/// fault. It answers its own fault.
pub fn attend<K: Keeper, P: Spawner, C: Clock, R: Wait>(
    rt: &R,
    alloc: Global,
    floor: &Floor<K>,
    pass: &mut FloorPass<K>,
    monitor: &mut Monitor,
    spawner: &mut P,
    clock: &mut C,
    board: &Board,
) -> Option<MonitorFault>
    requires own { IsPassOf floor.now pass.old }
    ensures part { MonitorAttends P.asked P.told P.misses P.faults floor.now pass.old monitor.old spawner.old pass.new monitor.new spawner.new }
    ensures told { result ≡ None → monitor.new.kept ≡ None }
    ensures cause { IfSome result (IsCaused (P.faults spawner.old) (P.faults spawner.new) pass.old.mark pass.new.mark pass.new.seen) }
{
    'turns: for _ in rt.forever() {
        match turn_once(rt, alloc, floor, pass, monitor, spawner, clock, board) {
            Ok(false) => {}
            Ok(true) => return None,
            Err(fault) => return Some(fault),
        }
    }
    unreachable!()
}
