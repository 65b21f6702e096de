// The seats of a server's threads, over the objects of the system.
ghost use Rattle.wrkmgr.specs.System.{AreFresh};

use std::alloc::{AllocError, Global};
use std::process::{Processes, SystemProcess};
use std::rt::Clock;
use std::sync::Wait;
use std::thread::Threads;
use wm_children::{Bell, SysSpawner};
use wm_listener::SysDesk;
use wm_outside::SysClock;
use wm_plan::ServePlan;
use wm_serve::{Crew, Seat};
use wm_traits::Keeper;

/// The seats of a server of the system.
pub type SysCrew<K, R> = Crew<K, SysDesk, SysSpawner<R>, SysClock<R>>;

// One more worker.
fn add_worker<K: Keeper, R: Processes<Started = SystemProcess> + Wait + Clock + Drop>(
    rt: R,
    crew: &mut SysCrew<K, R>,
) -> Result<(), AllocError>
    requires fresh { AreFresh crew.old.seats.items }
    ensures fresh { AreFresh crew.new.seats.items }
{
    crew.push(Seat::worker(SysDesk::new(), SysClock::new(rt)))
}

// The closer.
fn add_closer<K: Keeper, R: Processes<Started = SystemProcess> + Wait + Clock + Drop>(
    rt: R,
    crew: &mut SysCrew<K, R>,
) -> Result<(), AllocError>
    requires fresh { AreFresh crew.old.seats.items }
    ensures fresh { AreFresh crew.new.seats.items }
{
    crew.push(Seat::closer(SysClock::new(rt)))
}

// One more monitor, and the bell of its spawner.
fn add_monitor<
    K: Keeper,
    R: Processes<Started = SystemProcess> + Threads + Wait + Clock + Copy + Send + 'static,
>(rt: R, alloc: Global, crew: &mut SysCrew<K, R>, bells: &mut Vec<Bell>) -> Result<(), AllocError>
    requires fresh { AreFresh crew.old.seats.items }
    ensures fresh { AreFresh crew.new.seats.items }
{
    let spawner = SysSpawner::new(alloc, rt)?;
    let bell = spawner.bell()?;
    bells.push(bell)?;
    crew.push(Seat::monitor(spawner, SysClock::new(rt)))
}

/// Adds the seats of a server with this plan in the order in which `serve` takes them, and the bells of its monitors. An `Err`
/// is want of memory, or of a thread that waits for a monitor's children; the seats that were added stay.
pub fn add_seats<
    K: Keeper,
    R: Processes<Started = SystemProcess> + Threads + Wait + Clock + Copy + Send + 'static,
>(
    rt: R,
    alloc: Global,
    plan: &ServePlan,
    crew: &mut SysCrew<K, R>,
    bells: &mut Vec<Bell>,
) -> Result<(), AllocError>
    requires fresh { AreFresh crew.old.seats.items }
    ensures fresh { AreFresh crew.new.seats.items }
{
    for _ in 0..plan.workers {
        add_worker(rt, crew)?;
    }
    add_closer(rt, crew)?;
    for _ in 0..plan.monitors {
        add_monitor(rt, alloc, crew, bells)?;
    }
    Ok(())
}
