// A monitor and its spawner.
ghost use Rattle.std.specs.Prelude.{◌≡◌};
ghost use Rattle.wm_floor.specs.Floor.{IsPassOf};

use std::alloc::Global;
use std::mem;
use std::sync::Wait;
use wm_base::{Asked, Moment};
use wm_floor::{Floor, FloorPass, Monitor, MonitorFault, Turned};
use wm_outside::{MemClock, MemKeeper, MemSpawner};

/// The floor of the cases.
pub type TestFloor = Floor<MemKeeper>;

/// A pass of it.
pub type TestPass = FloorPass<MemKeeper>;

/// No child ends by itself within so many looks, where a case says nothing else.
pub const LAG: u32 = 1000;

/// A monitor and its spawner in memory.
#[derive(Drop)]
pub struct Watch {
    pub monitor: Monitor,
    spawner: MemSpawner,
}

impl Watch {
    /// A monitor that keeps nothing, and a spawner that doesn't fail.
    pub fn new(alloc: Global) -> Watch {
        let (starts, kills, looks) = (Vec::new(alloc), Vec::new(alloc), Vec::new(alloc));
        Watch {
            monitor: Monitor::new(),
            spawner: MemSpawner::new(alloc, LAG, starts, kills, looks),
        }
    }

    /// Takes another spawner.
    pub fn take(&mut self, spawner: MemSpawner)
        ensures { self.new.monitor ≡ self.old.monitor }
    {
        drop(mem::replace(&mut self.spawner, spawner));
    }

    /// A turn at this moment.
    pub fn turn<R: Wait>(
        &mut self,
        rt: &R,
        alloc: Global,
        floor: &TestFloor,
        pass: &mut TestPass,
        now: Moment,
    ) -> Result<Turned, MonitorFault>
        requires own { IsPassOf floor.now pass.old }
        ensures own { IsPassOf floor.now pass.new }
    {
        let mut clock = MemClock::new(now, 0);
        let waiting = floor.waiting(rt, pass);
        self.monitor.turn(
            rt,
            alloc,
            floor,
            pass,
            &mut self.spawner,
            &mut clock,
            waiting,
        )
    }

    /// A wait at this moment, until there is a report.
    pub fn wait<R: Wait>(
        &mut self,
        rt: &R,
        alloc: Global,
        floor: &TestFloor,
        pass: &mut TestPass,
        now: Moment,
    ) -> Result<Turned, MonitorFault>
        requires own { IsPassOf floor.now pass.old }
        ensures own { IsPassOf floor.now pass.new }
    {
        let mut clock = MemClock::new(now, 0);
        self.monitor.wait(rt, alloc, floor, pass, &mut self.spawner, &mut clock, None)
    }

    /// What its spawner was asked.
    pub fn asked(&self) -> &[Asked] {
        self.spawner.asked()
    }
}
