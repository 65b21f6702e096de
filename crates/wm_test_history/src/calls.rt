// Calls of a floor by the numbers of its passes, and of monitors over it, of whose answers nothing is said here: a proof above
// that has only these stays short.
ghost use Rattle.std.specs.Prelude.{◌≤◌};
ghost use Rattle.wm_law.specs.Fit.{IsCall};

use crate::passes::{call_at, join_all, join_at, place_of, turn_at, wait_at};
use crate::replies::push_entries;
use crate::watch::{TestFloor, TestPass, Watch};
use anyhow::{Context, Result, bail, ensure};
use std::alloc::Global;
use std::marker::Model;
use std::sync::Wait;
use wm_base::{Moment, NoMemory};
use wm_core::Setup;
use wm_desc::qbatch;
use wm_floor::{Answered, CallFault, Closed, Floor, Log, MONITOR, MonitorFault, OpenFault, Turned};
use wm_law::{Ask, Call, Pending};
use wm_listing::{listing, push_end};
use wm_outside::MemKeeper;
use wm_when::Offset;

/// The moment of each call, where no other is set.
pub const NOW: u64 = 1000;

/// The pass of a session.
pub const SESSION: u32 = 0;

/// An open floor, pass 0, and those that were split off and not joined again.
pub struct OpenFloor {
    floor: TestFloor,
    zero: TestPass,
    others: Vec<TestPass>,
    // How many were split off.
    made: u32,
}

impl Model for OpenFloor {
    ghost use Rattle.std.specs.Prelude.{◌≡◌, ⊤};
    ghost use Rattle.wm_test_history.specs.Open.{IsOpen};

    ghost Value = { ⊤ };

    ghost view = { λ _. tt };

    ghost invariant = { λ o. IsOpen o.floor o.zero o.others.items × (o.zero.made ≡ o.made) };
}

impl OpenFloor {
    /// Opens a floor over the keeper, with this limit. An `Err` hands the keeper back.
    pub fn open(
        alloc: Global,
        keeper: MemKeeper,
        limit: u32,
    ) -> Result<OpenFloor, (MemKeeper, OpenFault)>
        requires some { 1 ≤ limit }
        requires most { limit ≤ 1000000 }
    {
        let setup = Setup {
            ctl: qbatch(),
            offset: Offset::new(0),
        };
        match Floor::open(alloc, keeper, &setup, limit) {
            Ok((floor, zero)) => Ok(OpenFloor {
                floor,
                zero,
                others: Vec::new(alloc),
                made: 0,
            }),
            Err(back) => Err(back),
        }
    }

    /// Splits off a pass, and gives its number.
    pub fn split(&mut self) -> Result<u32> {
        ensure!(self.made < u32::MAX, "no number is left");
        self.others.reserve(1)?;
        let Ok(pass) = self.floor.split(&mut self.zero) else {
            unreachable!()
        };
        self.made += 1;
        let number = pass.number();
        self.others.push_reserved(pass);
        Ok(number)
    }

    /// Joins the pass of this number.
    pub fn join(&mut self, number: u32) -> Result<()> {
        let at = place_of(&self.others, number).context("no such pass")?;
        ensure!(at < self.others.len(), "no such place");
        join_at(&self.floor, &mut self.zero, &mut self.others, at);
        Ok(())
    }

    /// How many passes were split off and not joined again.
    pub fn out(&self) -> usize {
        self.others.len()
    }

    /// Makes a call of the pass of this number.
    pub fn call<R: Wait>(
        &mut self,
        rt: &R,
        alloc: Global,
        caller: u32,
        call: Call,
        now: Moment,
    ) -> Result<Result<Answered, CallFault>>
        requires fit { IsCall call }
    {
        if caller == 0 {
            return Ok(self.floor.call(rt, alloc, &mut self.zero, call, now));
        }
        let Some(at) = place_of(&self.others, caller) else {
            drop(call);
            bail!("no pass {caller}");
        };
        call_at(rt, alloc, &self.floor, &mut self.others, at, call, now).context("no such place")
    }

    /// The history, as pass 0 sees it.
    pub fn log<R: Wait>(&mut self, rt: &R, alloc: Global) -> Result<Log, NoMemory> {
        self.floor.log(rt, alloc, &mut self.zero)
    }

    /// What waits for the monitor of pass 1.
    pub fn pending<R: Wait>(&mut self, rt: &R) -> Pending {
        self.floor.pending(rt, &mut self.zero, MONITOR).pending
    }

    // The listing of what is asked of the state.
    fn shown<R: Wait>(&mut self, rt: &R, alloc: Global, ask: &Ask) -> Result<Vec<u8>, NoMemory> {
        let view = self.floor.read(rt, alloc, &mut self.zero, ask)?;
        listing(alloc, &view.shown)
    }

    /// The listing of what is asked. DSPLOG lists the calls that were made.
    pub fn listed<R: Wait>(
        &mut self,
        rt: &R,
        alloc: Global,
        ask: &Ask,
    ) -> Result<Vec<u8>, NoMemory> {
        if let Ask::Log = ask {
            let log = self.log(rt, alloc)?;
            return log_listed(alloc, &log);
        }
        self.shown(rt, alloc, ask)
    }

    /// Makes a turn of a monitor with the pass of this number.
    pub fn turn<R: Wait>(
        &mut self,
        rt: &R,
        alloc: Global,
        number: u32,
        watch: &mut Watch,
        now: Moment,
    ) -> Result<Result<Turned, MonitorFault>> {
        let at = place_of(&self.others, number).context("no such pass")?;
        turn_at(rt, alloc, &self.floor, &mut self.others, at, watch, now).context("no such place")
    }

    /// Makes a wait of a monitor with the pass of this number.
    pub fn wait<R: Wait>(
        &mut self,
        rt: &R,
        alloc: Global,
        number: u32,
        watch: &mut Watch,
        now: Moment,
    ) -> Result<Result<Turned, MonitorFault>> {
        let at = place_of(&self.others, number).context("no such pass")?;
        wait_at(rt, alloc, &self.floor, &mut self.others, at, watch, now).context("no such place")
    }

    /// Closes the floor, and gives its entries and its keeper. An `Err` hands it back, since a pass is out.
    pub fn shut(self) -> Result<Closed<MemKeeper>, OpenFloor> {
        let OpenFloor {
            floor,
            zero,
            others,
            made,
        } = self;
        match floor.close(zero) {
            Ok(closed) => {
                others.destroy_empty();
                Ok(closed)
            }
            Err((floor, zero)) => Err(OpenFloor {
                floor,
                zero,
                others,
                made,
            }),
        }
    }

    /// Joins all passes, and closes the floor.
    pub fn close(self) -> Closed<MemKeeper> {
        let OpenFloor {
            floor,
            mut zero,
            others,
            made: _,
        } = self;
        join_all(&floor, &mut zero, others);
        let closed = floor.close(zero);
        let Ok(closed) = closed else { unreachable!() };
        closed
    }
}

// The listing of a history.
fn log_listed(alloc: Global, log: &Log) -> Result<Vec<u8>, NoMemory> {
    let mut out = Vec::new(alloc);
    push_entries(alloc, &mut out, log, 0)?;
    push_end(&mut out)?;
    Ok(out)
}
