// Which counters a step changes.
ghost use Rattle.std.specs.Prelude.{◌≡◌, ◌++◌, OnOk};
ghost use Rattle.wm_tables.specs.Changes.{counter_change, counter_changes};

use crate::Counts;
use std::alloc::Global;
use wm_base::NoMemory;
use wm_rows::{Counter, counter_row};
use wm_traits::RowChange;

fn put_counter(
    alloc: Global,
    counter: Counter,
    before: u64,
    after: u64,
    changes: &mut Vec<RowChange>,
) -> Result<(), NoMemory>
    ensures { OnOk result (changes.new.items ≡ changes.old.items ++ counter_change counter before after) }
{
    if before != after {
        changes.push(RowChange::Put(counter_row(alloc, counter, after)?))?;
    }
    Ok(())
}

/// Puts the counters that aren't what they were. An `Err` is want of memory.
pub(crate) fn put_counters(
    alloc: Global,
    before: Counts,
    after: Counts,
    changes: &mut Vec<RowChange>,
) -> Result<(), NoMemory>
    ensures { OnOk result (changes.new.items ≡ changes.old.items ++ counter_changes before after) }
{
    let number = u64::from(before.next_number);
    let next_number = u64::from(after.next_number);
    put_counter(alloc, Counter::Number, number, next_number, changes)?;
    put_counter(
        alloc,
        Counter::Place,
        before.next_place,
        after.next_place,
        changes,
    )?;
    put_counter(
        alloc,
        Counter::Serial,
        before.next_serial,
        after.next_serial,
        changes,
    )?;
    Ok(())
}
