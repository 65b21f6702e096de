// The state that an empty store opens with: what eight commands make of no objects.
use crate::Machine;
use crate::mark::Mark;
use std::alloc::Global;
use wm_base::{Name, NoMemory, QName};
use wm_desc::{Objects, SortedList};
use wm_jobs::JobTable;
use wm_law::{Command, ListOf, Power};
use wm_making::opening_commands;
use wm_when::Offset;

/// What a machine opens with.
#[derive(Clone, Copy)]
pub struct Setup {
    /// The controlling subsystem.
    pub ctl: QName,
    pub offset: Offset,
}

impl Machine {
    ghost use Rattle.std.specs.Prelude.{◌≡◌, true, false, IfOk, OnOk, All};
    ghost use Rattle.wm_law.specs.Fit.{IsCommand};
    ghost use Rattle.wm_law.specs.Opening.{changed_by, empty, opening};
    ghost use Rattle.wm_law.specs.CallKinds.{configures};

    // No objects and no job.
    fn empty(alloc: Global, offset: Offset) -> Machine
        ensures state { result.state ≡ empty offset }
        ensures undoable { result.marks.mark.undoable ≡ false }
    {
        Machine {
            objects: Objects::new(alloc),
            started: ListOf::new(alloc),
            held: SortedList::new(alloc),
            stopped: ListOf::new(alloc),
            evokes: ListOf::new(alloc),
            next_number: 1,
            offset,
            power: Power::On,
            table: JobTable::new(alloc),
            mark: Mark::new(alloc),
        }
    }

    // Applies each of the commands.
    fn change_all(
        &mut self,
        alloc: Global,
        user: &Name,
        commands: &[Command],
    ) -> Result<(), NoMemory>
        requires ranges { All IsCommand commands.now }
        requires configure { All (λ c. configures c ≡ true) commands.now }
        ensures state { OnOk result (self.new.state ≡ changed_by user.now self.old.state commands.now) }
        ensures marks { OnOk result (self.new.marks ≡ self.old.marks) }
    {
        for command in commands {
            self.configure(alloc, user, command)?;
        }
        Ok(())
    }

    /// The state of no rows: the objects of the opening commands, and no job. An `Err` is want of memory.
    #[tactic(auto, unfolding(wm_law::specs::Opening::opening), using(wm_law::proofs::Opened::commands_fit))]
    pub fn opening(alloc: Global, setup: &Setup) -> Result<Machine, NoMemory>
        ensures state { IfOk result (λ machine. machine.state ≡ opening setup.now.offset) }
        ensures undoable { IfOk result (λ machine. machine.marks.mark.undoable ≡ false) }
    {
        let commands = opening_commands(alloc)?;
        let mut machine = Machine::empty(alloc, setup.offset);
        if let Err(fault) = machine.change_all(alloc, &Name::of(b"QSYS"), &commands) {
            // By a call, since a machine that goes out of scope is taken apart here, which is dear to prove.
            drop(machine);
            return Err(fault);
        }
        Ok(machine)
    }
}
