// A monitor's thread, over a spawner and a clock in memory.
ghost use Rattle.wm_floor.specs.Floor.{IsPassOf};

use crate::record::Watched;
use anyhow::{Result, bail};
use std::alloc::{AllocError, Global};
use std::sync::Wait;
use wm_base::{Asked, Moment};
use wm_floor::{Floor, FloorPass, Monitor};
use wm_outside::{MemClock, MemSpawner};
use wm_traits::Keeper;

/// A monitor with what it starts jobs by.
#[derive(Drop)]
pub struct Watcher {
    monitor: Monitor,
    spawner: MemSpawner,
    clock: MemClock,
    sent: u64,
}

/// Adds what was asked, in a line.
pub fn push_asked(alloc: Global, out: &mut Vec<u8>, asked: &Asked) -> Result<(), AllocError> {
    let line = match asked {
        Asked::Start(order) => format!(in alloc; "START {}\n", order.serial)?,
        Asked::Kill(serial) => format!(in alloc; "KILL {serial}\n")?,
    };
    out.extend_from_slice(line.as_bytes())
}

impl Watcher {
    /// A monitor that keeps nothing, and children that end by themselves after so many looks.
    pub fn new(alloc: Global, lag: u32) -> Watcher {
        let none = || Vec::new(alloc);
        Watcher {
            monitor: Monitor::new(),
            spawner: MemSpawner::new(alloc, lag, none(), none(), none()),
            clock: MemClock::new(Moment::new(1000), 1),
            sent: 0,
        }
    }

    /// One turn.
    pub fn turn<K: Keeper, R: Wait>(
        &mut self,
        rt: &R,
        alloc: Global,
        floor: &Floor<K>,
        pass: &mut FloorPass<K>,
    ) -> Result<()>
        requires own { IsPassOf floor.now pass.old }
        ensures own { IsPassOf floor.now pass.new }
    {
        let waiting = floor.waiting(rt, pass);
        let turned = self.monitor.turn(
            rt,
            alloc,
            floor,
            pass,
            &mut self.spawner,
            &mut self.clock,
            waiting,
        );
        match turned {
            Ok(turned) => self.sent = self.sent.saturating_add(u64::from(turned.sent)),
            Err(_) => bail!("a monitor's turn ended early"),
        }
        Ok(())
    }

    /// What it was answered.
    pub fn watched(&self, alloc: Global) -> Result<Watched> {
        let mut asked = Vec::new(alloc);
        for one in self.spawner.asked() {
            push_asked(alloc, &mut asked, one)?;
        }
        Ok(Watched {
            sent: self.sent,
            asked,
        })
    }
}
