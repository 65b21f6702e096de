// Counting what a history came to, and the line that says it.
ghost use Rattle.std.specs.Prelude.{◌≡◌, IfOk, count_by, pos, string_bytes};
ghost use Rattle.wm_law.specs.Counts.{is_waiting};
ghost use Rattle.wm_law.specs.History.{IsLegal};
ghost use Rattle.wm_law.specs.Opening.{opening};
ghost use Rattle.wm_runs.specs.Counts.{counts_of, is_completed, is_done, is_submitted, line_with, submits};

use crate::counts::Counts;
use crate::replay::replayed;
use std::alloc::Global;
use wm_base::{EndCause, NoMemory};
use wm_floor::Log;
use wm_law::{Entry, Job, Phase, Reply};
use wm_plan::DrillPlan;

// Whether a reply says that a job was submitted.
fn is_submitted(reply: &Reply) -> bool
    ensures { result ≡ is_submitted reply.now }
{
    matches!(reply, Reply::Submitted(_, _))
}

// Whether the reply of an entry says so.
#[tactic(auto, unfolding(crate::specs::Counts::submits))]
fn submits(entry: &Entry) -> bool
    ensures { result ≡ submits entry.now }
{
    is_submitted(&entry.reply)
}

// Whether a job ended because it was done.
fn is_done(cause: &EndCause) -> bool
    ensures { result ≡ is_done cause.now }
{
    matches!(cause, EndCause::Completed)
}

// Whether a job has ended so.
fn is_completed(phase: &Phase) -> bool
    ensures { result ≡ is_completed phase.now }
{
    match phase {
        Phase::Ended(cause) => is_done(cause),
        _ => false,
    }
}

fn is_waiting(phase: &Phase) -> bool
    ensures { result ≡ is_waiting phase.now }
{
    matches!(phase, Phase::Waiting)
}

fn submitted(log: &Log) -> usize
    ensures { result ≡ count_by submits log.now }
{
    let mut count = 0;
    for at in 0..log.len() {
        let Some(entry) = log.entry(at) else {
            unreachable!()
        };
        if submits(entry) {
            count += 1;
        }
    }
    count
}

fn completed(jobs: &[Job]) -> usize
    ensures { result ≡ count_by (λ j. is_completed j.phase) jobs.now }
{
    jobs.iter().filter(|job| is_completed(&job.phase)).count()
}

fn waiting(jobs: &[Job]) -> usize
    ensures { result ≡ count_by (λ j. is_waiting j.phase) jobs.now }
{
    jobs.iter().filter(|job| is_waiting(&job.phase)).count()
}

/// Counts what a history came to: its calls are made once more, and the jobs of the state that they reach are looked at. An
/// `Err` is want of memory.
pub fn counts(alloc: Global, log: &Log) -> Result<Counts, NoMemory>
    requires { IsLegal (opening (pos 0)) log.now }
    ensures { IfOk result (λ counts. counts ≡ counts_of log.now) }
{
    let core = replayed(alloc, log)?;
    let jobs = core.jobs().jobs();
    let counts = Counts {
        submitted: submitted(log),
        completed: completed(jobs),
        waiting: waiting(jobs),
    };
    drop(core);
    Ok(counts)
}

/// The line of a drill. An `Err` is want of memory.
pub fn line(alloc: Global, plan: &DrillPlan, counts: &Counts) -> Result<String, NoMemory>
    ensures { IfOk result (λ line. string_bytes line ≡ line_with plan.now counts.now) }
{
    let DrillPlan { seed, jobs } = *plan;
    let Counts {
        submitted,
        completed,
        waiting,
    } = *counts;
    let mut line = format!(in alloc;
        "drill seed {seed} jobs {jobs} submitted {submitted} completed {completed} waiting {waiting}"
    )?;
    line.push_str("\n")?;
    Ok(line)
}
