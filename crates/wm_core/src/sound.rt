// The machine whose state is sound.
ghost use Rattle.std.specs.Prelude.{◌≡◌, true, false, OnOk, OnErr, IfOk};
ghost use Rattle.wm_law.specs.Fit.{IsCall};
ghost use Rattle.wm_law.specs.Limits.{IsWithinLimits};
ghost use Rattle.wm_law.specs.Machine.{step};
ghost use Rattle.wm_law.specs.Maxuse.{IsWithinMaxuse};
ghost use Rattle.wm_law.specs.Opening.{opening};
ghost use Rattle.wm_law.specs.Order.{IsInOrder};
ghost use Rattle.wm_law.specs.Pending.{pending};
ghost use Rattle.wm_law.specs.Sound.{IsSound};
ghost use Rattle.wm_law.specs.SoundPrestart.{IsPrestartSound};

use crate::{Machine, Setup};
use std::alloc::Global;
use std::marker::Model;
use wm_base::{Moment, NoMemory};
use wm_desc::Objects;
use wm_jobs::JobTable;
use wm_law::{Call, Pending, Power, QNames, Reply, SbsList};

/// A machine whose state is sound, with nothing in it that is due to end: it was opened, or came from a store, and then
/// changed by steps alone, of which the last may be taken back. A contract sees the state, the one before the last step, and whether that step can be taken back.
#[derive(Drop)]
pub struct Core {
    pub(crate) machine: Machine,
}

impl Model for Core {
    ghost use Rattle.wm_core.specs.LastStep.{LastStep};

    ghost Value = { LastStep };

    ghost use Rattle.wm_core.specs.LastStep.{last_step_of, IsCoreInside};

    ghost view = { last_step_of };

    ghost invariant = { IsCoreInside };
}

impl Core {
    /// The state of no rows: the objects of the opening commands, and no job. An `Err` is want of memory.
    pub fn opening(alloc: Global, setup: &Setup) -> Result<Core, NoMemory>
        ensures state { IfOk result (λ core. core.state ≡ opening setup.now.offset) }
        ensures undoable { IfOk result (λ core. core.undoable ≡ false) }
    {
        let machine = Machine::opening(alloc, setup)?;
        Ok(Core { machine })
    }

    /// One step, which can be taken back. An `Err` is want of memory and leaves the state.
    pub fn step(
        &mut self,
        alloc: Global,
        caller: u32,
        call: &Call,
        now: Moment,
    ) -> Result<Reply, NoMemory>
        requires ranges { IsCall call.now }
        ensures reply { IfOk result (λ r. r ≡ (step self.old.state caller call.now now).reply) }
        ensures state { OnOk result (self.new.state ≡ (step self.old.state caller call.now now).state) }
        ensures before { OnOk result (self.new.before ≡ self.old.state) }
        ensures undoable { OnOk result (self.new.undoable ≡ true) }
        ensures err { OnErr result (self.new.state ≡ self.old.state) }
        ensures no_way_back { OnErr result (self.new.undoable ≡ false) }
        ensures limits { OnOk result (IsWithinLimits self.old.state self.new.state) }
        ensures order { OnOk result (IsInOrder self.old.state self.new.state) }
        ensures prestart { OnOk result (IsPrestartSound self.old.state → IsPrestartSound self.new.state) }
        ensures uses { OnOk result (IsPrestartSound self.old.state → IsWithinMaxuse self.old.state → IsWithinMaxuse self.new.state) }
    {
        let reply = self.machine.step(alloc, caller, call, now)?;
        Ok(reply)
    }

    /// The last step is taken back. It takes no memory.
    pub fn take_back(&mut self)
        requires { self.old.undoable ≡ true }
        ensures state { self.new.state ≡ self.old.before }
        ensures undoable { self.new.undoable ≡ false }
    {
        self.machine.take_back();
    }

    /// What waits for a monitor. It takes no memory.
    pub fn pending(&self, monitor: u32) -> Pending
        ensures { result ≡ pending self.now.state monitor }
    {
        self.machine.pending(monitor)
    }

    /// The objects.
    pub fn objects(&self) -> &Objects
        ensures { result.now ≡ self.now.state.objects }
    {
        &self.machine.objects
    }

    /// The jobs, with what became of them in the last step.
    pub fn jobs(&self) -> &JobTable
        ensures jobs { result.now.jobs ≡ self.now.state.jobs }
        ensures clock { result.now.clock ≡ self.now.state.clock }
        ensures next_serial { result.now.next_serial ≡ self.now.state.next_serial }
        ensures next_place { result.now.next_place ≡ self.now.state.next_place }
        ensures before { result.now.marked.jobs ≡ self.now.before.jobs }
    {
        self.machine.jobs()
    }

    /// The started subsystems.
    pub fn started(&self) -> &SbsList
        ensures { result.now ≡ self.now.state.started }
    {
        &self.machine.started
    }

    /// The held queues.
    pub fn held(&self) -> &QNames
        ensures { result.now ≡ self.now.state.held }
    {
        &self.machine.held
    }

    /// The number of the next job.
    pub fn next_number(&self) -> u32
        ensures { result ≡ self.now.state.next_number }
    {
        self.machine.next_number
    }

    /// Whether the system takes work.
    pub fn power(&self) -> Power
        ensures { result ≡ self.now.state.power }
    {
        self.machine.power
    }

    /// The machine, whose state this is.
    pub fn machine(&self) -> &Machine
        ensures { result.now.state ≡ self.now.state }
    {
        &self.machine
    }
}
