// What is written where there are no rows: those of the state that the opening commands make.
ghost use Rattle.std.specs.Prelude.{◌≡◌, ◌∷◌, [], ◌++◌, fold, IfOk, OnOk};
ghost use Rattle.wm_traits.specs.declared.row.RowChange.TheVariants.{Put};
ghost use Rattle.wm_rows.specs.Rows.{counter_row};
ghost use Rattle.wm_rows.specs.Tables.{counter_rows};
ghost use Rattle.wm_tables.specs.Tables.{puts};
ghost use Rattle.wm_restart.specs.Written.{with_made, first_changes};

use std::alloc::Global;
use wm_base::NoMemory;
use wm_core::opening_commands;
use wm_law::Command;
use wm_rows::{Counter, command_row, counter_row};
use wm_traits::RowChange;

// Puts the row of what a command makes.
fn put_made(alloc: Global, command: &Command, changes: &mut Vec<RowChange>) -> Result<(), NoMemory>
    ensures { OnOk result (changes.new.items ≡ with_made changes.old.items command.now) }
{
    if let Some(row) = command_row(alloc, command)? {
        changes.push(RowChange::Put(row))?;
    }
    Ok(())
}

// Puts the rows of what commands make.
fn put_all_made(
    alloc: Global,
    commands: &[Command],
    changes: &mut Vec<RowChange>,
) -> Result<(), NoMemory>
    ensures { OnOk result (changes.new.items ≡ fold with_made changes.old.items commands.now) }
{
    for command in commands {
        put_made(alloc, command, changes)?;
    }
    Ok(())
}

// Puts a counter that begins at 1.
fn put_counter(
    alloc: Global,
    counter: Counter,
    changes: &mut Vec<RowChange>,
) -> Result<(), NoMemory>
    ensures { OnOk result (changes.new.items ≡ changes.old.items ++ Put (counter_row counter 1) ∷ []) }
{
    changes.push(RowChange::Put(counter_row(alloc, counter, 1)?))?;
    Ok(())
}

// Puts all counters.
fn put_counters(alloc: Global, changes: &mut Vec<RowChange>) -> Result<(), NoMemory>
    ensures { OnOk result (changes.new.items ≡ changes.old.items ++ puts (counter_rows 1 1 1)) }
{
    put_counter(alloc, Counter::Number, changes)?;
    put_counter(alloc, Counter::Place, changes)?;
    put_counter(alloc, Counter::Schema, changes)?;
    put_counter(alloc, Counter::Serial, changes)?;
    Ok(())
}

/// The changes that put the rows of the opening state. An `Err` is want of memory.
pub(crate) fn first_changes(alloc: Global) -> Result<Vec<RowChange>, NoMemory>
    ensures { IfOk result (λ changes. changes.items ≡ first_changes) }
{
    let commands = opening_commands(alloc)?;
    let mut changes = Vec::new(alloc);
    put_all_made(alloc, &commands, &mut changes)?;
    put_counters(alloc, &mut changes)?;
    Ok(changes)
}
