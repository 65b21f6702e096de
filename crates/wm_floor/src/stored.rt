// The machine with its keeper.
ghost use Rattle.std.specs.Prelude.{◌≡◌, IfOk, IfErr, OnOk, OnErr};
ghost use Rattle.wm_law.specs.Fit.{IsCall};
ghost use Rattle.wm_law.specs.Machine.{step};
ghost use Rattle.wm_law.specs.Pending.{pending};
ghost use Rattle.wm_traits.specs.Cause.{HasKeepCause};
ghost use Rattle.wm_floor.specs.OpenFaults.{IsCounted, NamesBad};
ghost use Rattle.wm_floor.specs.Keeping.{telling, IsKept, IsLeft, IsOpened};
ghost use Rattle.wm_floor.specs.Stored.{HasTables};
ghost use Rattle.wm_views.specs.Views.{shown};

use crate::OpenFault;
use crate::keeping::{counts, keep_copied};
use crate::opening::open_core;
use crate::viewing::view;
use std::alloc::Global;
use std::marker::Model;
use wm_base::{Moment, NoMemory};
use wm_core::{Core, Setup};
use wm_law::{Ask, Call, Pending, Reply};
use wm_tables::removed_number;
use wm_traits::{KeepFault, Keeper};
use wm_views::Shown;

/// The machine, whose rows a keeper has. A contract sees its state and its keeper; where the keeper tells its tables, they are
/// those of the state.
#[derive(Drop)]
pub struct StoredCore<K: Keeper> {
    core: Core,
    keeper: K,
}

/// The machine's reply, and a copy of it: one for the entry and one for the caller.
#[derive(Drop)]
pub struct Replied {
    pub reply: Reply,
    pub copy: Reply,
}

impl<K: Keeper> Model for StoredCore<K> {
    ghost use Rattle.wm_floor.specs.Stored.{Stored, IsInStep};

    ghost Value = { Stored K };

    ghost view = { λ c. record { state = c.core.state; keeper = c.keeper } };

    ghost invariant = { λ c. IsInStep c.core.state (K.tables c.keeper) };
}

impl<K: Keeper> StoredCore<K> {
    /// The machine of the rows that a keeper has. The rows of the new run are written in one call, unless there are none. An
    /// `Err` hands the keeper back, with its rows as they were.
    pub fn open(
        alloc: Global,
        mut keeper: K,
        setup: &Setup,
    ) -> Result<StoredCore<K>, (K, OpenFault)>
        ensures ok { IfOk result (λ stored. IsOpened setup.now.offset stored.state (telling K.tables K.trail keeper) (telling K.tables K.trail stored.keeper)) }
        ensures ok_faults { IfOk result (λ stored. K.faults stored.keeper ≡ K.faults keeper) }
        ensures err { IfErr result (λ back. IsLeft (telling K.tables K.trail keeper) (telling K.tables K.trail back.0)) }
        ensures bad { IfErr result (λ back. NamesBad setup.now.offset (K.tables keeper) back.1) }
        ensures faults { IfErr result (λ back. IsCounted (K.faults keeper) (K.faults back.0) back.1) }
    {
        match open_core(alloc, &mut keeper, setup) {
            Ok(core) => Ok(StoredCore { core, keeper }),
            Err(fault) => Err((keeper, fault)),
        }
    }

    /// One step, whose reply is copied and whose rows are then kept in one call, unless there are none, before it answers. An
    /// `Err` is a fault of the keeper, which it has counted, or want of memory, here or there; it leaves the state and the rows.
    pub fn step(
        &mut self,
        alloc: Global,
        caller: u32,
        call: &Call,
        now: Moment,
    ) -> Result<Replied, KeepFault>
        requires ranges { IsCall call.now }
        ensures reply { IfOk result (λ r. r.reply ≡ (step self.old.state caller call.now now).reply) }
        ensures copy { IfOk result (λ r. r.copy ≡ r.reply) }
        ensures state { OnOk result (self.new.state ≡ (step self.old.state caller call.now now).state) }
        ensures kept { OnOk result (IsKept self.old.state self.new.state (telling K.tables K.trail self.old.keeper) (telling K.tables K.trail self.new.keeper)) }
        ensures err { OnErr result (self.new.state ≡ self.old.state) }
        ensures left { OnErr result (IsLeft (telling K.tables K.trail self.old.keeper) (telling K.tables K.trail self.new.keeper)) }
        ensures cause { HasKeepCause (K.faults self.old.keeper) (K.faults self.new.keeper) result }
    {
        let removed = removed_number(self.core.objects(), call);
        let before = counts(&self.core);
        // The range of the moment is what the law of changes needs.
        let _moment = now.get();
        let reply = self.core.step(alloc, caller, call, now)?;
        let kept = keep_copied(
            alloc,
            &mut self.keeper,
            &self.core,
            call,
            &reply,
            removed,
            before,
        );
        match kept {
            Ok(copy) => Ok(Replied { reply, copy }),
            Err(fault) => {
                self.core.take_back();
                Err(fault)
            }
        }
    }

    /// What waits for a monitor, known by the number of its pass. It takes no memory.
    pub fn pending(&self, monitor: u32) -> Pending
        ensures { result ≡ pending self.now.state monitor }
    {
        self.core.pending(monitor)
    }

    /// What a reading command shows of the state. An `Err` is want of memory.
    pub fn view(&self, alloc: Global, ask: &Ask) -> Result<Shown, NoMemory>
        ensures { IfOk result (λ view. view ≡ shown self.now.state ask.now) }
    {
        view(&self.core, alloc, ask)
    }

    /// The keeper.
    pub fn close(self) -> K
        ensures keeper { result ≡ self.keeper }
        ensures tables { HasTables self.state (K.tables result) }
    {
        let StoredCore { core, keeper } = self;
        // By a call, since a machine that goes out of scope is taken apart here, which is dear to prove.
        drop(core);
        keeper
    }
}
