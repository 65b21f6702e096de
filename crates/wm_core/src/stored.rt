// The machine of what a store has.
use crate::mark::Mark;
use crate::{Core, Machine};
use std::alloc::Global;
use wm_base::NoMemory;
use wm_desc::Objects;
use wm_jobs::JobTable;
use wm_law::{Job, ListOf, Power, QNames};
use wm_when::Offset;

/// What a store has of a state.
#[derive(Drop)]
pub struct Kept {
    pub objects: Objects,
    pub held: QNames,
    pub jobs: Vec<Job>,
    pub next_number: u32,
    pub next_serial: u64,
    pub next_place: u64,
    pub offset: Offset,
}

impl Machine {
    ghost use Rattle.std.specs.Prelude.{◌≡◌, false, IfOk};
    ghost use Rattle.wm_jobs.specs.Stored.{AreStored};
    ghost use Rattle.wm_core.specs.Stored.{kept_state};

    // The machine of what a store has, sound or not.
    fn stored(alloc: Global, kept: Kept) -> Result<Machine, NoMemory>
        requires { AreStored kept.next_serial kept.next_place kept.jobs.items }
        ensures state { IfOk result (λ machine. machine.state ≡ kept_state kept) }
        ensures undoable { IfOk result (λ machine. machine.marks.mark.undoable ≡ false) }
    {
        let table = JobTable::stored(alloc, kept.jobs, kept.next_serial, kept.next_place)?;
        Ok(Machine {
            objects: kept.objects,
            started: ListOf::new(alloc),
            held: kept.held,
            stopped: ListOf::new(alloc),
            evokes: ListOf::new(alloc),
            next_number: kept.next_number,
            offset: kept.offset,
            power: Power::On,
            table,
            mark: Mark::new(alloc),
        })
    }
}

impl Core {
    ghost use Rattle.std.specs.Prelude.{◌≡◌, false, All, IfOk};
    ghost use Rattle.wm_law.specs.Counts.{is_active};
    ghost use Rattle.wm_law.specs.Sound.{IsSound};
    ghost use Rattle.wm_core.specs.Stored.{kept_state};

    /// The machine of what a store has: no subsystem is started, the clock is 0, and the power is On. An `Err` is want of
    /// memory, or comes where there are more jobs than a table takes.
    pub fn stored(alloc: Global, kept: Kept) -> Result<Core, NoMemory>
        requires sound { IsSound (kept_state kept) }
        requires inactive { All (λ j. is_active j.phase ≡ false) (kept_state kept).jobs }
        ensures state { IfOk result (λ core. core.state ≡ kept_state kept) }
        ensures undoable { IfOk result (λ core. core.undoable ≡ false) }
    {
        let machine = Machine::stored(alloc, kept)?;
        Ok(Core { machine })
    }
}
