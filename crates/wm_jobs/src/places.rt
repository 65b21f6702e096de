// Where a job stands, and its change there.
ghost use Rattle.std.specs.Prelude.{◌≡◌, map, vec_capacity, IfSome, MatchResult};
ghost use Rattle.std.specs.Ordering.{nat_cmp};
ghost use Rattle.wm_desc.specs.Place.{IsAt, IsGap};
ghost use Rattle.wm_desc.specs.Sorted.{IsSortedOnce};
ghost use Rattle.wm_law.specs.Jobs.{changed_at};
ghost use Rattle.wm_jobs.specs.Marked.{standing_as};
ghost use Rattle.wm_jobs.specs.Table.{serial_of};

use crate::touched::Standing;
use std::cmp::Ordering;
use wm_base::Serial;
use wm_law::Job;

// Where the job of a serial stands where all serials from the first on are given, which they are but in some stores.
fn place_by_count(jobs: &[Job], serial: Serial) -> Option<usize>
    requires { IsSortedOnce serial_of nat_cmp jobs.now }
    ensures { IfSome result (IsAt serial_of nat_cmp serial jobs.now) }
{
    let first = jobs.first()?;
    let at = serial.get().checked_sub(first.serial.get())? as usize;
    if jobs.get(at)?.serial == serial {
        Some(at)
    } else {
        None
    }
}

/// Where the job of a serial stands, or where it would go. It is one look where serials follow one another.
pub(crate) fn place(jobs: &[Job], serial: Serial) -> Result<usize, usize>
    requires { IsSortedOnce serial_of nat_cmp jobs.now }
    ensures { MatchResult result (IsAt serial_of nat_cmp serial jobs.now) (IsGap serial_of nat_cmp serial jobs.now) }
{
    match place_by_count(jobs, serial) {
        Some(at) => Ok(at),
        None => search(jobs, serial),
    }
}

// The same, by halves.
fn search(jobs: &[Job], serial: Serial) -> Result<usize, usize>
    requires { IsSortedOnce serial_of nat_cmp jobs.now }
    ensures { MatchResult result (IsAt serial_of nat_cmp serial jobs.now) (IsGap serial_of nat_cmp serial jobs.now) }
{
    jobs.binary_search_by(
        |job: &Job| -> Ordering
            ensures { result ≡ nat_cmp job.now.serial serial }
        { job.serial.cmp(&serial) },
    )
}

/// Has the job of a serial, which stands there, stand like that.
pub(crate) fn stand_at(jobs: &mut Vec<Job>, at: usize, serial: Serial, standing: &Standing)
    requires { IsAt serial_of nat_cmp serial jobs.old.items at }
    ensures jobs { jobs.new.items ≡ map (changed_at serial (standing_as standing.now)) jobs.old.items }
    ensures capacity { vec_capacity jobs.new ≡ vec_capacity jobs.old }
{
    let job = &mut jobs[at];
    job.phase = standing.phase;
    job.how = standing.how;
    job.wish = standing.wish;
    job.held = standing.held;
    job.due = standing.due;
    job.jobq = standing.jobq;
    job.pty = standing.pty;
    job.place = standing.place;
    job.uses = standing.uses;
    job.evoke = standing.evoke;
}
