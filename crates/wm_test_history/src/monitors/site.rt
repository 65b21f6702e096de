// A floor in memory with two monitors.
use crate::calls::OpenFloor;
use crate::opened::{open, with_monitor};
use crate::watch::Watch;
use anyhow::{Result, bail};
use std::alloc::Global;
use std::sync::Wait;
use wm_base::{Asked, Moment};
use wm_floor::{MonitorFault, Turned};
use wm_outside::{MemKeeper, MemSpawner};

/// One of the two monitors, by the number of its pass.
#[derive(Clone, Copy)]
pub enum Which {
    First,
    Second,
}

/// An open floor with the passes 0, 1 and 2, and the two monitors.
pub struct Site {
    pub floor: OpenFloor,
    first: Watch,
    second: Watch,
}

// A floor over this keeper, with the passes of both monitors.
fn opened(alloc: Global, keeper: MemKeeper) -> Result<OpenFloor> {
    match open(alloc, keeper, "")? {
        Ok(floor) => with_monitor(floor),
        Err((keeper, fault)) => {
            drop(keeper);
            bail!("not opened: {fault}")
        }
    }
}

impl Site {
    /// A floor over this keeper.
    pub fn open(alloc: Global, keeper: MemKeeper) -> Result<Site> {
        let floor = opened(alloc, keeper)?;
        Ok(Site {
            floor,
            first: Watch::new(alloc),
            second: Watch::new(alloc),
        })
    }

    /// Closes the floor.
    pub fn close(self) {
        let Site {
            floor,
            first,
            second,
        } = self;
        drop(first);
        drop(second);
        drop(floor.close());
    }

    /// Gives a monitor another spawner.
    pub fn equip(&mut self, which: Which, spawner: MemSpawner) {
        match which {
            Which::First => self.first.take(spawner),
            Which::Second => self.second.take(spawner),
        }
    }

    /// A turn of a monitor.
    pub fn turn<R: Wait>(
        &mut self,
        rt: &R,
        alloc: Global,
        which: Which,
        now: Moment,
    ) -> Result<Result<Turned, MonitorFault>> {
        match which {
            Which::First => self.floor.turn(rt, alloc, 1, &mut self.first, now),
            Which::Second => self.floor.turn(rt, alloc, 2, &mut self.second, now),
        }
    }

    /// A wait of a monitor.
    pub fn wait<R: Wait>(
        &mut self,
        rt: &R,
        alloc: Global,
        which: Which,
        now: Moment,
    ) -> Result<Result<Turned, MonitorFault>> {
        match which {
            Which::First => self.floor.wait(rt, alloc, 1, &mut self.first, now),
            Which::Second => self.floor.wait(rt, alloc, 2, &mut self.second, now),
        }
    }

    /// What the spawner of a monitor was asked.
    pub fn asked(&self, which: Which) -> &[Asked] {
        match which {
            Which::First => self.first.asked(),
            Which::Second => self.second.asked(),
        }
    }
}
