// What a job that starts or ends is to what it is counted by.
ghost use Rattle.std.specs.Prelude.{◌≡◌, ◌+◌, ◌^◌, ◌<◌, ◌≤◌, true, false, nat_eq, if◌then◌else◌, List, [], ◌∷◌, ◌++◌, OnOk};
ghost use Rattle.std.specs.Ordering.{nat_cmp};
ghost use Rattle.wm_desc.specs.Sorted.{has_key, added, removed};
ghost use Rattle.wm_law.specs.Counts.{is_starting, is_active};
ghost use Rattle.wm_ordered.specs.Ordered.{key_of};
ghost use Rattle.wm_pick.specs.Tally.{HasFew};
ghost use Rattle.wm_law.specs.declared.job.Job.{Job};
ghost use Rattle.wm_base.specs.declared.job.EndCause.TheVariants.{Restarted};
ghost use Rattle.wm_law.specs.declared.job.Phase.TheVariants.{Ended};
ghost use Rattle.wm_law.specs.Reports.{in_phase};
ghost use Rattle.wm_indexes.specs.Names.{HasLast, IsNames};
ghost use Rattle.wm_pick.specs.Parts.{waiter_of};
ghost use Rattle.wm_indexes.specs.OfJobs.{row_of};
ghost use Rattle.wm_jobs.specs.Stored.{joined_by, IsOther};
ghost use Rattle.wm_jobs.specs.Indexed.{acting_of, seated, Starts, HasTaken, nodes_of};

use crate::acting::acting_of;
use crate::phases::{is_active, is_starting, waiter_of};
use crate::prestart::prestart_of;
use wm_base::{EndCause, How, NoMemory, Serial};
use wm_indexes::{ActiveJobs, JobNames, PrestartJobs};
use wm_law::{Job, Phase, Wish};
use wm_ordered::{Ordered, WaitingJobs};
use wm_pick::Tally;

/// Counts the how of a job that comes into a phase from Waiting.
pub(crate) fn count_start(tally: &mut Tally, how: &How, phase: &Phase)
    requires spare { 1 ≤ tally.old.spare }
    requires few { HasFew tally.old }
    ensures hows { Starts (is_active phase.now) tally.old tally.new how.now }
    ensures spare { tally.old.spare ≤ tally.new.spare + 1 }
    ensures kept { is_active phase.now ≡ false → tally.old.spare ≤ tally.new.spare }
{
    if is_active(phase) {
        tally.start(how);
    }
}

/// Puts a job that comes into a phase among those that wait for a monitor, where it does.
pub(crate) fn put_order(starting: &mut Ordered<Serial, ()>, serial: Serial, phase: &Phase)
    requires spare { is_starting phase.now ≡ true → 1 ≤ starting.old.spare }
    requires new { has_key key_of nat_eq serial starting.old.items ≡ false }
    ensures items { starting.new.items ≡ (if is_starting phase.now then added key_of nat_cmp (serial, tt) starting.old.items else starting.old.items) }
    ensures spare { starting.old.spare ≤ starting.new.spare + 1 }
    ensures nodes { nodes_of starting.new ≡ nodes_of starting.old }
{
    if is_starting(phase) {
        starting.insert(serial, ());
    }
}

/// Takes a serial out of others, where it is among them. Its room is spare again.
pub(crate) fn take_serial(serials: &mut Ordered<Serial, ()>, serial: Serial)
    ensures items { serials.new.items ≡ removed key_of nat_eq serial serials.old.items }
    ensures spare { serials.old.spare ≤ serials.new.spare }
    ensures nodes { nodes_of serials.new ≡ nodes_of serials.old }
{
    // `len` tells that serials differ.
    serials.len();
    serials.remove(&serial);
}

/// Puts a job that comes into a phase from another one among the active ones, where it is active then.
pub(crate) fn put_active(active: &mut ActiveJobs, serial: Serial, phase: &Phase, wish: &Wish)
    requires spare { 1 ≤ active.old.spare }
    requires new { has_key key_of nat_eq serial active.old.items ≡ false }
    ensures items { active.new.items ≡ (if is_active phase.now then added key_of nat_cmp (serial, acting_of phase.now wish.now) active.old.items else active.old.items) }
    ensures spare { active.old.spare ≤ active.new.spare + 1 }
    ensures kept { is_active phase.now ≡ false → active.old.spare ≤ active.new.spare }
{
    if is_active(phase) {
        active.insert(serial, acting_of(phase, wish));
    }
}

/// Puts a job among the prestart jobs, where it is active and came by a prestart entry.
pub(crate) fn put_prestart(prestart: &mut PrestartJobs, job: &Job)
    requires spare { 1 ≤ prestart.old.spare }
    requires new { has_key key_of nat_eq job.now.serial prestart.old.items ≡ false }
    ensures items { prestart.new.items ≡ seated (row_of job.now) prestart.old.items }
    ensures spare { prestart.old.spare ≤ prestart.new.spare + 1 }
{
    if let Some(comer) = prestart_of(job) {
        prestart.insert(job.serial, comer);
    }
}

/// One more, where it counts.
pub(crate) fn more(count: usize, counts: bool) -> usize
    requires { count + 1 < 2 ^ 64 }
    ensures { result ≡ count + (if counts then 1 else 0) }
{
    if counts { count + 1 } else { count }
}

/// One less, where it counted.
pub(crate) fn fewer(count: usize, counted: bool) -> usize
    requires { (if counted then 1 else 0) ≤ count }
    ensures { result + (if counted then 1 else 0) ≡ count }
{
    if counted { count - 1 } else { count }
}

/// Makes room in what jobs are found and counted by: for so many more that wait, for so many starts more, for so many more
/// orders, and for so many more names. An `Err` is want of memory; none has less room then than it had.
pub(crate) fn reserve_all(
    waiting: &mut WaitingJobs,
    tally: &mut Tally,
    starting: &mut Ordered<Serial, ()>,
    active: &mut ActiveJobs,
    prestart: &mut PrestartJobs,
    names: &mut JobNames,
    waits: u32,
    starts: u32,
    orders: u32,
    named: u32,
) -> Result<(), NoMemory>
    ensures ok { OnOk result (HasTaken waits starts orders named waiting.new tally.new starting.new active.new prestart.new names.new) }
    ensures items { waiting.new.items ≡ waiting.old.items }
    ensures clock { waiting.new.clock ≡ waiting.old.clock }
    ensures counts { tally.new.counts ≡ tally.old.counts }
    ensures orders { starting.new.items ≡ starting.old.items }
    ensures active { active.new.items ≡ active.old.items }
    ensures prestart { prestart.new.items ≡ prestart.old.items }
    ensures names { (jobs : List Job) → IsNames jobs names.old → IsNames jobs names.new }
    ensures waiting_spare { waiting.old.spare ≤ waiting.new.spare }
    ensures tally_spare { tally.old.spare ≤ tally.new.spare }
    ensures starting_spare { starting.old.spare ≤ starting.new.spare }
    ensures active_spare { active.old.spare ≤ active.new.spare }
    ensures prestart_spare { prestart.old.spare ≤ prestart.new.spare }
    ensures names_spare { names.old.spare ≤ names.new.spare }
{
    waiting.reserve(waits)?;
    tally.reserve(starts)?;
    starting.reserve(orders)?;
    active.reserve(starts)?;
    prestart.reserve(starts)?;
    names.reserve(named)?;
    Ok(())
}

/// Puts a job among those that wait, where it does.
pub(crate) fn put_waiter(waiting: &mut WaitingJobs, job: &Job)
    requires spare { 1 ≤ waiting.old.spare }
    requires other { IsOther (waiter_of job.now) waiting.old.items }
    ensures items { waiting.new.items ≡ joined_by (waiter_of job.now) waiting.old.items }
    ensures clock { waiting.new.clock ≡ waiting.old.clock }
    ensures spare { waiting.old.spare ≤ waiting.new.spare + 1 }
{
    if let Some(waiter) = waiter_of(job) {
        waiting.insert(waiter);
    }
}

/// Forgets the last job of the list that the names are of, as if it had ended.
pub(crate) fn forget(names: &mut JobNames, mut job: Job)
    requires { HasLast names.old (in_phase (Ended Restarted) job) }
    ensures names { (jobs : List Job) → IsNames (jobs ++ in_phase (Ended Restarted) job ∷ []) names.old → IsNames jobs names.new }
    ensures spare { names.old.spare ≤ names.new.spare }
{
    job.phase = Phase::Ended(EndCause::Restarted);
    names.forget(&job);
}
