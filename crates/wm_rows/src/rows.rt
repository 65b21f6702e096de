// The rows of commands and of stored things.
ghost use Rattle.std.specs.Prelude.{◌≡◌, IfOk};
ghost use Rattle.wm_rows.specs.Rows.{made_row, command_row, row_of};

use crate::counter::counter_row;
use crate::held::held_row;
use crate::place::Place;
use crate::places::place_of;
use crate::stored::Stored;
use std::alloc::Global;
use wm_base::NoMemory;
use wm_command::print;
use wm_law::Command;
use wm_traits::Row;

// The row at a place that holds a command.
fn made_row(alloc: Global, place: Place, command: &Command) -> Result<Row, NoMemory>
    ensures { IfOk result (λ row. row ≡ made_row place command.now) }
{
    let body = print(alloc, command)?;
    Ok(Row {
        tab: place.tab,
        key: place.key,
        body,
    })
}

/// The row of what a command makes, and None where no row is kept of that. An `Err` is want of memory.
pub fn command_row(alloc: Global, command: &Command) -> Result<Option<Row>, NoMemory>
    ensures { IfOk result (λ row. row ≡ command_row command.now) }
{
    match place_of(alloc, command)? {
        None => Ok(None),
        Some(place) => {
            let row = made_row(alloc, place, command)?;
            Ok(Some(row))
        }
    }
}

/// The row of a stored thing, and None for a command that makes none. An `Err` is want of memory.
pub fn row_of(alloc: Global, stored: &Stored) -> Result<Option<Row>, NoMemory>
    ensures { IfOk result (λ row. row ≡ row_of stored.now) }
{
    let row = match stored {
        Stored::Made(command) => return command_row(alloc, command),
        Stored::Held(jobq) => held_row(alloc, jobq)?,
        Stored::Counter(counter, n) => counter_row(alloc, *counter, *n)?,
    };
    Ok(Some(row))
}
