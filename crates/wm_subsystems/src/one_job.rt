// ENDJOB on a job.
ghost use Rattle.std.specs.Prelude.{◌≡◌};
ghost use Rattle.wm_law.specs.Endings.{is_wished, job_wish};
ghost use Rattle.wm_law.specs.Wishes.{has_wish, is_now, moment_after};
ghost use Rattle.wm_subsystems.specs.OneJob.{active_ending, ending_of};

use crate::job_ending::Ending;
use wm_base::{Moment, PhaseWord, Refusal};
use wm_law::{EndOption, Endjob, Job, Phase, Why, Wish};

/// Whether there is a wish.
pub fn has_wish(wish: &Wish) -> bool
    ensures { result ≡ has_wish wish.now }
{
    match wish {
        Wish::NoWish => false,
        Wish::Later { .. } | Wish::Now { .. } => true,
    }
}

/// Whether a wish is one to end now.
pub fn is_now(wish: &Wish) -> bool
    ensures { result ≡ is_now wish.now }
{
    match wish {
        Wish::NoWish | Wish::Later { .. } => false,
        Wish::Now { .. } => true,
    }
}

/// Whether a wish is there that the option would give.
pub(crate) fn is_wished(option: EndOption, wish: &Wish) -> bool
    ensures { result ≡ is_wished option wish.now }
{
    match option {
        EndOption::Cntrld => has_wish(wish),
        EndOption::Immed => is_now(wish),
    }
}

/// The clock plus a delay in seconds, at most the greatest moment.
pub fn moment_after(clock: Moment, delay: u32) -> Moment
    ensures { result ≡ moment_after clock delay }
{
    let sum = clock.get() + delay as u64;
    Moment::new(sum.min(Moment::MAX))
}

fn job_wish(clock: Moment, option: EndOption, delay: u32) -> Wish
    ensures { result ≡ job_wish clock option delay }
{
    match option {
        EndOption::Cntrld => Wish::Later {
            until: Some(moment_after(clock, delay)),
            why: Why::Endjob,
        },
        EndOption::Immed => Wish::Now {
            why: Why::Endjob,
            handed: false,
        },
    }
}

// An active job gets its wish, where it hasn't one that the option would give.
fn end_active(job: &Job, command: &Endjob, clock: Moment) -> Result<Ending, Refusal>
    ensures { result ≡ active_ending clock command.now job.now }
{
    if is_wished(command.option, &job.wish) {
        return Err(Refusal::AlreadyEnding);
    }
    Ok(Ending::Wished(job_wish(clock, command.option, command.delay)))
}

/// What ENDJOB makes of a job: one that waits ends on its queue, whatever the option, and an active one is to end. An `Err` is
/// the refusal of a job that has ended, or that is to end already.
pub fn end_job(job: &Job, command: &Endjob, clock: Moment) -> Result<Ending, Refusal>
    ensures { result ≡ ending_of clock command.now job.now }
{
    match job.phase {
        Phase::Waiting => Ok(Ending::OnQueue),
        Phase::Starting | Phase::Handed(_) | Phase::Running(_) => end_active(job, command, clock),
        Phase::Ended(_) => Err(Refusal::WrongPhase(PhaseWord::Ended)),
    }
}
