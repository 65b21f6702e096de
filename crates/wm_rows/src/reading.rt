// Reading rows.
ghost use Rattle.std.specs.Prelude.{◌≡◌, ◌↔◌, ℕ, ◌<◌, ◌^◌, IsTrue, IfOk, IfSome, Some};
ghost use Rattle.std.specs.Fmt.{decimal};
ghost use Rattle.wm_base.specs.QName.{qname_text};
ghost use Rattle.wm_base.specs.declared.qname.QName.{QName};
ghost use Rattle.wm_command.specs.Print.{command_text};
ghost use Rattle.wm_command.specs.Printed.{IsFit};
ghost use Rattle.wm_law.specs.Fit.{IsQName};
ghost use Rattle.wm_law.specs.declared.command.Command.{Command};
ghost use Rattle.wm_rows.specs.Fitting.{IsFitting};
ghost use Rattle.wm_rows.specs.Rows.{counter_word, row_of};
ghost use Rattle.wm_rows.specs.declared.stored.Counter.{Counter};
ghost use Rattle.wm_rows.specs.declared.stored.Stored.{Stored};

use crate::body::read_body;
use crate::counter::{counter_named, read_number};
use crate::held::read_name;
use crate::place::{CLASSES, COUNTERS, HELD, PRE_ENTRIES};
use crate::rows::row_of;
use crate::stored::Stored;
use std::alloc::Global;
use wm_base::NoMemory;
use wm_traits::Row;

fn read_made(alloc: Global, row: &Row) -> Result<Option<Stored>, NoMemory>
    ensures fitting { IfOk result (λ o. IfSome o IsFitting) }
    ensures exactly { IfOk result (λ o. (c : Command) → IsFit c → row.now.body ≡ command_text c → o ≡ Some (Stored.Made c)) }
{
    match read_body(alloc, row.body.as_bytes())? {
        None => Ok(None),
        Some(command) => Ok(Some(Stored::Made(command))),
    }
}

fn read_held(row: &Row) -> Result<Option<Stored>, NoMemory>
    ensures fitting { IfOk result (λ o. IfSome o IsFitting) }
    ensures exactly { IfOk result (λ o. (q : QName) → IsQName q → row.now.key ≡ qname_text q → o ≡ Some (Stored.Held q)) }
{
    match read_name(&row.key)? {
        None => Ok(None),
        Some(jobq) => Ok(Some(Stored::Held(jobq))),
    }
}

fn read_counter(row: &Row) -> Option<Stored>
    ensures fitting { IfSome result IsFitting }
    ensures exactly { (c : Counter) (n : ℕ) → n < 2 ^ 64 → row.now.key ≡ counter_word c → row.now.body ≡ decimal n → result ≡ Some (Stored.Counter c n) }
{
    let counter = counter_named(row.key.as_bytes())?;
    let n = read_number(&row.body)?;
    Some(Stored::Counter(counter, n))
}

// What a row may hold: by its body where that is a command, by its key where it is that of a held queue.
fn found(alloc: Global, row: &Row) -> Result<Option<Stored>, NoMemory>
    ensures fitting { IfOk result (λ o. IfSome o IsFitting) }
    ensures exactly { IfOk result (λ o. (s : Stored) → IsFitting s → row_of s ≡ Some row.now → o ≡ Some s) }
{
    match row.tab {
        CLASSES..=PRE_ENTRIES => {
            let made = read_made(alloc, row)?;
            Ok(made)
        }
        HELD => {
            let held = read_held(row)?;
            Ok(held)
        }
        COUNTERS => Ok(read_counter(row)),
        _ => Ok(None),
    }
}

fn is_row(written: &Option<Row>, row: &Row) -> bool
    ensures { IsTrue result ↔ (written.now ≡ Some row.now) }
{
    match written {
        None => false,
        Some(written) => written == row,
    }
}

fn is_row_of(alloc: Global, row: &Row, stored: &Stored) -> Result<bool, NoMemory>
    ensures { IfOk result (λ same. IsTrue same ↔ (row_of stored.now ≡ Some row.now)) }
{
    let written = row_of(alloc, stored)?;
    Ok(is_row(&written, row))
}

/// What a row holds, and None for a row that is that of no such thing, as for each row of a job. An `Err` is want of
/// memory.
pub fn read_row(alloc: Global, row: &Row) -> Result<Option<Stored>, NoMemory>
    // What is read keeps its forms and ranges, and the row is the one that is written of it.
    ensures fitting { IfOk result (λ o. IfSome o IsFitting) }
    ensures value { IfOk result (λ o. IfSome o (λ s. row_of s ≡ Some row.now)) }

    // The row of each thing is read as that thing.
    ensures exactly { IfOk result (λ o. (s : Stored) → IsFitting s → row_of s ≡ Some row.now → o ≡ Some s) }
{
    let Some(stored) = found(alloc, row)? else {
        return Ok(None);
    };
    if is_row_of(alloc, row, &stored)? {
        Ok(Some(stored))
    } else {
        Ok(None)
    }
}
