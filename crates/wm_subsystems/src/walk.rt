// The walk over the active jobs, each of which is told something.
ghost use Rattle.std.specs.Prelude.{◌≡◌, ◌==◌, ◌+◌, ◌≤◌, true, map, find, IfSome, OnOk, OnErr};
ghost use Rattle.wm_law.specs.Counts.{is_active};
ghost use Rattle.wm_subsystems.specs.Telling.{told_as, wished_at, ended_at, told_at};
ghost use Rattle.wm_subsystems.specs.Walks.{AreInLine, HasRoomForActive, KeepsRest};

use crate::meant::{Telling, Told};
use crate::told::told_of;
use std::alloc::AllocError;
use wm_base::{EndCause, Moment, NoMemory, Serial};
use wm_jobs::JobTable;
use wm_law::{Phase, SbsList, Wish};

/// Makes room to tell each active job something. An `Err` is want of memory and leaves the table.
pub fn reserve_for_active(table: &mut JobTable) -> Result<(), NoMemory>
    ensures room { OnOk result (HasRoomForActive table.new) }
    ensures jobs { table.new.jobs ≡ table.old.jobs }
    ensures rest { KeepsRest table.old table.new }
    ensures err { OnErr result (table.new ≡ table.old) }
{
    let Ok(changes) = u32::try_from(table.active().saturating_mul(2)) else {
        return Err(AllocError);
    };
    table.reserve_changes(changes)?;
    Ok(())
}

// Gives the job of a serial a wish, where there is one and the job is active.
fn give_wish(table: &mut JobTable, serial: Serial, wish: Option<Wish>)
    requires changes { 1 ≤ table.old.changes }
    ensures jobs { table.new.jobs ≡ map (wished_at serial wish) table.old.jobs }
    ensures changes { table.old.changes ≤ table.new.changes + 1 }
    ensures rest { KeepsRest table.old table.new }
{
    if let Some(wish) = wish {
        table.set_wish(serial, wish);
    }
}

// Ends the job of a serial, which is active, where there is a cause.
fn end_by(table: &mut JobTable, serial: Serial, cause: Option<EndCause>)
    requires active { IfSome (find (λ j. j.serial == serial) table.old.jobs) (λ j. is_active j.phase ≡ true) }
    requires changes { 1 ≤ table.old.changes }
    ensures jobs { table.new.jobs ≡ map (ended_at serial cause) table.old.jobs }
    ensures changes { table.old.changes ≤ table.new.changes + 1 }
    ensures rest { KeepsRest table.old table.new }
{
    if let Some(cause) = cause {
        table.set_phase(serial, Phase::Ended(cause));
    }
}

// Tells the job of a serial, which is active, what it is to be told.
fn tell(table: &mut JobTable, serial: Serial, told: &Told)
    requires active { IfSome (find (λ j. j.serial == serial) table.old.jobs) (λ j. is_active j.phase ≡ true) }
    requires changes { 2 ≤ table.old.changes }
    ensures jobs { table.new.jobs ≡ map (told_at serial told.now) table.old.jobs }
    ensures changes { table.old.changes ≤ table.new.changes + 2 }
    ensures rest { KeepsRest table.old table.new }
{
    give_wish(table, serial, told.wish);
    end_by(table, serial, told.cause);
}

/// Tells each active job what it is to be told. The others stay as they are, and aren't looked at. It takes no memory.
pub fn tell_all(table: &mut JobTable, telling: &Telling, clock: Moment, started: &SbsList)
    requires line { AreInLine table.old.next_serial table.old.jobs }
    requires room { HasRoomForActive table.old }
    ensures jobs { table.new.jobs ≡ map (told_as telling.now clock started.now) table.old.jobs }
    ensures rest { KeepsRest table.old table.new }
{
    let mut from = Serial::new(0);
    while let Some(job) = table.active_from(from) {
        let serial = job.serial;
        let told = told_of(telling, clock, started, job);
        tell(table, serial, &told);
        from = Serial::new(serial.get() + 1);
    }
}
