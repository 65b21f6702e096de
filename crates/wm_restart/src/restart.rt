// The rows of a store, one after another.
ghost use Rattle.std.specs.Prelude.{◌≡◌, ◌↔◌, ℕ, ◌+◌, ◌<◌, ◌≤◌, take, length, Err, IsTrue, IfOk};
ghost use Rattle.wm_traits.specs.Rows.{IsInOrder, is_of};
ghost use Rattle.wm_rows.specs.Rows.{counter_word};
ghost use Rattle.wm_tables.specs.Restart.{AreGood, HasCounters, IsBad};
ghost use Rattle.wm_restart.specs.Restarted.{has_counter, has_all, AreOrdered};
ghost use Rattle.wm_restart.specs.declared.restart.RestartFault.TheVariants.{BadRow};
ghost use Rattle.wm_rows.specs.declared.stored.Counter.{Counter};

use crate::reading::Reading;
use std::alloc::{AllocError, Global};
use thiserror::Error;
use wm_base::NoMemory;
use wm_rows::{COUNTERS, Counter, counter_word};
use wm_traits::{Row, are_in_order};
use wm_when::Offset;

/// Why rows make no state.
#[derive(Debug, Drop, Error)]
pub enum RestartFault {
    /// The number of the first row that isn't good, counted from 0; the number of rows, where all are good but a counter lacks.
    #[error("row {0} isn't good")]
    BadRow(usize),
    #[error("out of memory")]
    NoMemory,
}

impl From<AllocError> for RestartFault {
    ghost use Rattle.wm_restart.specs.declared.restart.RestartFault.TheVariants.{NoMemory};
    ghost use Rattle.std.specs.Prelude.{◌≡◌};

    ghost from_gives = { λ _ fault. fault ≡ NoMemory };

    fn from(_: AllocError) -> RestartFault {
        RestartFault::NoMemory
    }
}

// How many of the first rows stand in their order, where not all do.
fn broken_at(rows: &[Row]) -> usize
    requires { IsInOrder rows.now → ⊥ }
    ensures within { result < length rows.now }
    ensures before { IsInOrder (take result rows.now) }
    ensures broken { IsInOrder (take (result + 1) rows.now) → ⊥ }
{
    let mut low = 0;
    let mut high = rows.len();
    while high - low > 1 {
        let middle = low + (high - low) / 2;
        if are_in_order(&rows[..middle]) {
            low = middle;
        } else {
            high = middle;
        }
    }
    low
}

// How many of the first rows stand in their order.
fn ordered(rows: &[Row]) -> usize
    ensures { AreOrdered rows.now result }
{
    if are_in_order(rows) {
        rows.len()
    } else {
        broken_at(rows)
    }
}

// Whether one of the rows is that of a counter, by its table and key.
fn has_counter(rows: &[Row], counter: Counter) -> bool
    ensures { result ≡ has_counter counter rows.now }
{
    let word = counter_word(counter);
    rows.iter().any(
        |row: &Row| -> bool
            ensures { result ≡ is_of 12 word.entry.now row.now }
        { row.tab == COUNTERS && row.key.as_bytes() == word },
    )
}

// Whether no counter lacks.
fn has_all(rows: &[Row]) -> bool
    ensures { result ≡ has_all rows.now }
{
    has_counter(rows, Counter::Number)
        && has_counter(rows, Counter::Place)
        && has_counter(rows, Counter::Schema)
        && has_counter(rows, Counter::Serial)
}

impl Reading {
    ghost use Rattle.std.specs.Prelude.{◌≡◌, ◌+◌, ◌<◌, ◌≤◌, false, take, length, IsTrue, IfOk};
    ghost use Rattle.wm_restart.specs.Restarted.{AreRead};

    // Takes rows up to the first that makes no state, or a number of them, and answers how many it took.
    fn take_first(&mut self, alloc: Global, rows: &[Row], most: usize) -> Result<usize, NoMemory>
        requires { most ≤ length rows.now }
        ensures { IfOk result (λ n. AreRead rows.now most n self.old self.new) }
    {
        for n in 0..most {
            if !self.take(alloc, &rows[n])? {
                return Ok(n);
            }
        }
        Ok(most)
    }
}

/// The state that rows make. An `Err` is want of memory, or has the number of the first row that isn't good. Where there are
/// no rows at all, a run opens with the opening commands.
pub fn read_rows(alloc: Global, rows: &[Row], offset: Offset) -> Result<Reading, RestartFault>
    requires { 1 ≤ length rows.now }
    ensures good { IfOk result (λ reading. AreGood offset rows.now reading) }
    ensures counters { IfOk result (λ reading. HasCounters rows.now) }
    ensures bad { (n : ℕ) → result ≡ Err (BadRow n) → IsBad offset rows.now n }
{
    let most = ordered(rows);
    let mut reading = Reading::new(alloc, offset);
    let n = reading.take_first(alloc, rows, most)?;
    if n < rows.len() {
        return Err(RestartFault::BadRow(n));
    }
    if !has_all(rows) {
        return Err(RestartFault::BadRow(rows.len()));
    }
    Ok(reading)
}
