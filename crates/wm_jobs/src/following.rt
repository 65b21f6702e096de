// What jobs are found and counted by follows a job that comes to stand otherwise. Where the job has no entry before and
// after, nothing is touched; nor are the tally and the orders where it has one before and after.
ghost use Rattle.std.specs.Prelude.{◌≡◌, ◌+◌, ◌^◌, ◌<◌, ◌≤◌, true, false, is_some};
ghost use Rattle.wm_law.specs.Counts.{is_waiting, is_starting, is_active};
ghost use Rattle.wm_law.specs.Named.{is_ended};
ghost use Rattle.wm_indexes.specs.Names.{HasNamed, HasFew as HasFewNames};
ghost use Rattle.wm_pick.specs.Parts.{waiter_of};
ghost use Rattle.wm_indexes.specs.OfJobs.{row_of};
ghost use Rattle.wm_pick.specs.Tally.{HasFew, HasStarted};
ghost use Rattle.wm_jobs.specs.Indexed.{order_of, active_of, nodes_of};
ghost use Rattle.wm_jobs.specs.Marked.{standing_as};
ghost use Rattle.wm_jobs.specs.Standings.{bit, comes, spent, AreOf, IsItsPlace, Follows, HowsFollow, NamesFollow, NamesAgain, CanFollow, HasFollowed};
ghost use Rattle.wm_jobs.specs.Table.{is_busy};

use crate::acting::acting_of;
use crate::counts::{fewer, more, take_serial};
use crate::phases::{counts_as_busy, is_active, is_ended, is_starting, is_waiting, waiter_of};
use crate::prestart::{prestart_as, prestart_of};
use crate::touched::Standing;
use wm_base::Serial;
use wm_indexes::{ActiveJobs, JobNames, PrestartJobs};
use wm_law::{Job, Phase};
use wm_ordered::{Ordered, Waiter, WaitingJobs};
use wm_pick::Tally;

// A job that comes to stand like that, as what a choice looks at, where it waits then.
fn waiter_as(job: &Job, standing: &Standing) -> Option<Waiter>
    ensures { result ≡ waiter_of (standing_as standing.now job.now) }
{
    if !is_waiting(&standing.phase) {
        return None;
    }
    let jobq = standing.jobq?;
    Some(Waiter {
        serial: job.serial,
        jobq,
        pty: standing.pty,
        place: standing.place,
        held: standing.held,
        due: standing.due,
    })
}

fn follow_waiter(waiting: &mut WaitingJobs, job: &Job, standing: &Standing)
    requires among { AreOf waiter_of waiting.old.items job.now }
    requires own { is_waiting standing.now.phase ≡ true → IsItsPlace standing.now.place job.now.serial waiting.old.items }
    requires spare { comes (is_some (waiter_of job.now)) (is_some (waiter_of (standing_as standing.now job.now))) ≤ waiting.old.spare }
    ensures items { Follows waiter_of job.now (standing_as standing.now job.now) waiting.old.items waiting.new.items }
    ensures clock { waiting.new.clock ≡ waiting.old.clock }
    ensures spare { waiting.new.spare + bit (is_some (waiter_of (standing_as standing.now job.now))) ≡ waiting.old.spare + bit (is_some (waiter_of job.now)) }
{
    match (waiter_of(job), waiter_as(job, standing)) {
        (None, None) => {}
        (None, Some(waiter)) => {
            waiting.insert(waiter);
        }
        (Some(_), None) => {
            waiting.remove(job.serial);
        }
        (Some(_), Some(waiter)) => {
            waiting.replace(waiter);
        }
    }
}

fn follow_how(tally: &mut Tally, job: &Job, standing: &Standing)
    requires counted { is_active job.now.phase ≡ true → HasStarted tally.old job.now.how }
    requires few { HasFew tally.old }
    requires how { is_active job.now.phase ≡ true → is_active standing.now.phase ≡ true → standing.now.how ≡ job.now.how }
    requires spare { comes (is_active job.now.phase) (is_active standing.now.phase) ≤ tally.old.spare }
    ensures hows { HowsFollow job.now (standing_as standing.now job.now) tally.old tally.new }
    ensures spare { tally.old.spare ≤ tally.new.spare + comes (is_active job.now.phase) (is_active standing.now.phase) }
{
    match (is_active(&job.phase), is_active(&standing.phase)) {
        (false, true) => {
            tally.start(&standing.how);
        }
        (true, false) => {
            tally.end(&job.how);
        }
        (true, true) => {}
        (false, false) => {}
    }
}

fn follow_order(starting: &mut Ordered<Serial, ()>, job: &Job, standing: &Standing)
    requires among { AreOf order_of starting.old.items job.now }
    requires spare { comes (is_starting job.now.phase) (is_starting standing.now.phase) ≤ starting.old.spare }
    ensures items { Follows order_of job.now (standing_as standing.now job.now) starting.old.items starting.new.items }
    ensures nodes { nodes_of starting.new ≡ nodes_of starting.old }
{
    match (is_starting(&job.phase), is_starting(&standing.phase)) {
        (false, true) => {
            starting.insert(job.serial, ());
        }
        (true, false) => {
            take_serial(starting, job.serial);
        }
        (true, true) => {}
        (false, false) => {}
    }
}

fn follow_active(active: &mut ActiveJobs, job: &Job, standing: &Standing)
    requires among { AreOf active_of active.old.items job.now }
    requires spare { comes (is_active job.now.phase) (is_active standing.now.phase) ≤ active.old.spare }
    ensures items { Follows active_of job.now (standing_as standing.now job.now) active.old.items active.new.items }
    ensures spare { active.old.spare ≤ active.new.spare + comes (is_active job.now.phase) (is_active standing.now.phase) }
{
    let acting = acting_of(&standing.phase, &standing.wish);
    match (is_active(&job.phase), is_active(&standing.phase)) {
        (false, false) => {}
        (false, true) => {
            active.insert(job.serial, acting);
        }
        (true, false) => {
            active.remove(job.serial);
        }
        (true, true) => {
            active.set(job.serial, acting);
        }
    }
}

fn follow_prestart(prestart: &mut PrestartJobs, job: &Job, standing: &Standing)
    requires among { AreOf row_of prestart.old.items job.now }
    requires how { is_active job.now.phase ≡ true → is_active standing.now.phase ≡ true → standing.now.how ≡ job.now.how }
    requires spare { comes (is_active job.now.phase) (is_active standing.now.phase) ≤ prestart.old.spare }
    ensures items { Follows row_of job.now (standing_as standing.now job.now) prestart.old.items prestart.new.items }
    ensures spare { prestart.old.spare ≤ prestart.new.spare + comes (is_active job.now.phase) (is_active standing.now.phase) }
{
    match (prestart_of(job), prestart_as(job, standing)) {
        (None, None) => {}
        (None, Some(comer)) => {
            prestart.insert(job.serial, comer);
        }
        (Some(_), None) => {
            prestart.remove(job.serial);
        }
        (Some(_), Some(same)) => {
            prestart.set(job.serial, same);
        }
    }
}

fn follow_name(names: &mut JobNames, job: &Job, phase: &Phase)
    requires { is_ended job.now.phase ≡ false → HasNamed names.old job.now }
    ensures names { NamesFollow job.now phase.now names.old names.new }
    ensures spare { names.old.spare ≤ names.new.spare }
{
    if is_ended(&job.phase) {
        return;
    }
    if is_ended(phase) {
        names.end(job);
    }
}

/// What jobs are found and counted by follows a job that comes to stand like that. It takes no memory. A name that it had
/// lost by its end is given back by `rejoin`.
pub(crate) fn follow(
    waiting: &mut WaitingJobs,
    tally: &mut Tally,
    starting: &mut Ordered<Serial, ()>,
    active: &mut ActiveJobs,
    prestart: &mut PrestartJobs,
    names: &mut JobNames,
    job: &Job,
    standing: &Standing,
)
    requires { CanFollow waiting.old tally.old starting.old active.old prestart.old names.old job.now standing.now }
    ensures { HasFollowed job.now standing.now waiting.old waiting.new tally.old tally.new starting.old starting.new active.old active.new prestart.old prestart.new names.old names.new }
{
    follow_waiter(waiting, job, standing);
    follow_how(tally, job, standing);
    follow_order(starting, job, standing);
    follow_active(active, job, standing);
    follow_prestart(prestart, job, standing);
    follow_name(names, job, &standing.phase);
}

/// Where a job had ended, and hasn't any more, a reference without its number names it again. It takes no memory.
pub(crate) fn rejoin(names: &mut JobNames, had_ended: bool, job: &Job)
    requires spare { 1 ≤ names.old.spare }
    requires few { HasFewNames names.old }
    ensures names { NamesAgain had_ended job.now names.old names.new }
    ensures spare { names.old.spare ≤ names.new.spare + 1 }
{
    if had_ended {
        names.rejoin(job);
    }
}

/// How many there are where a job comes to stand like that, if those count that are active and no prestart jobs.
pub(crate) fn recount(count: usize, job: &Job, standing: &Standing) -> usize
    requires counted { bit (is_busy job.now) ≤ count }
    requires few { count + 1 < 2 ^ 64 }
    ensures { result + bit (is_busy job.now) ≡ count + bit (is_busy (standing_as standing.now job.now)) }
{
    let was = counts_as_busy(is_active(&job.phase), &job.kind);
    let is = counts_as_busy(is_active(&standing.phase), &job.kind);
    more(fewer(count, was), is)
}

/// How many changes are spent where a job comes into a phase: none where it stops to wait.
pub(crate) fn spent(was: &Phase, is: &Phase) -> u32
    ensures { result ≡ spent was.now is.now }
{
    if is_waiting(was) && !is_waiting(is) {
        0
    } else {
        1
    }
}
