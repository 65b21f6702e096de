// How many jobs of a prestart entry are available.
ghost use Rattle.std.specs.Prelude.{◌≡◌, ℕ, ◌+◌, ◌^◌, ◌<◌, ◌≤◌, List, nat_eq, insert, Some, if◌then◌else◌};
ghost use Rattle.std.specs.Ordering.{nat_cmp};
ghost use Rattle.wm_desc.specs.Sorted.{IsSortedOnce, removed};
ghost use Rattle.wm_ordered.specs.Index.{capacity_of};
ghost use Rattle.wm_ordered.specs.Ordered.{key_of, value_at};
ghost use Rattle.wm_indexes.specs.declared.prestart_job.PrestartEntry.{PrestartEntry};
ghost use Rattle.wm_indexes.specs.declared.prestart_job.PrestartJob.{PrestartJob};
ghost use Rattle.wm_indexes.specs.Ready.{same_entry};
ghost use Rattle.wm_indexes.specs.Seats.{AreNumbers, HaveSome, number_at};

use crate::prestart_job::{PrestartEntry, PrestartJob};
use crate::rows::take_row;
use wm_ordered::Ordered;

/// The number of an entry.
pub(crate) fn number(rows: &Ordered<PrestartEntry, u32>, entry: &PrestartEntry) -> u32
    ensures { result ≡ number_at entry.now rows.now.items }
{
    rows.get(entry).unwrap_or(0)
}

// Adds 1 to the number of an entry.
fn raise(rows: &mut Ordered<PrestartEntry, u32>, entry: &PrestartEntry)
    requires spare { 1 ≤ rows.old.spare }
    requires fits { number_at entry.now rows.old.items + 1 < 2 ^ 32 }
    ensures numbers { (e : PrestartEntry) → number_at e rows.new.items ≡ number_at e rows.old.items + (if same_entry entry.now e then 1 else 0) }
    ensures some { HaveSome rows.old.items → HaveSome rows.new.items }
    ensures capacity { capacity_of rows.new ≡ capacity_of rows.old }
{
    match rows.get(entry) {
        Some(number) => {
            rows.set(entry, number + 1);
        }
        None => rows.insert(*entry, 1),
    }
}

// Takes 1 from the number of an entry, where it has one.
fn lower(rows: &mut Ordered<PrestartEntry, u32>, entry: &PrestartEntry)
    ensures numbers { 1 ≤ number_at entry.now rows.old.items → (e : PrestartEntry) → number_at e rows.new.items + (if same_entry entry.now e then 1 else 0) ≡ number_at e rows.old.items }
    ensures some { HaveSome rows.old.items → HaveSome rows.new.items }
    ensures capacity { capacity_of rows.new ≡ capacity_of rows.old }
{
    let number = number(rows, entry);
    if number > 1 {
        rows.set(entry, number - 1);
    } else {
        take_row(rows, true, entry);
    }
}

/// Counts a job, where it is available.
pub(crate) fn join(numbers: &mut Ordered<PrestartEntry, u32>, job: &PrestartJob)
    requires spare { 1 ≤ numbers.old.spare }
    requires fits { number_at job.now.entry numbers.old.items + 1 < 2 ^ 32 }
    ensures numbers { (jobs : List (ℕ × PrestartJob)) (serial i : ℕ) → AreNumbers jobs numbers.old.items → AreNumbers (insert jobs i (serial, job.now)) numbers.new.items }
    ensures capacity { capacity_of numbers.new ≡ capacity_of numbers.old }
{
    if job.readiness.is_available() {
        raise(numbers, &job.entry);
    }
}

/// Counts a job no more, where it is available.
pub(crate) fn part(numbers: &mut Ordered<PrestartEntry, u32>, job: &PrestartJob)
    ensures numbers { (jobs : List (ℕ × PrestartJob)) (serial : ℕ) → AreNumbers jobs numbers.old.items → IsSortedOnce key_of nat_cmp jobs → value_at nat_eq serial jobs ≡ Some job.now → AreNumbers (removed key_of nat_eq serial jobs) numbers.new.items }
    ensures capacity { capacity_of numbers.new ≡ capacity_of numbers.old }
{
    if job.readiness.is_available() {
        lower(numbers, &job.entry);
    }
}
