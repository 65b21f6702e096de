// The changes of a step.
ghost use Rattle.std.specs.Prelude.{◌≡◌, IfOk, option_to_list};
ghost use Rattle.wm_law.specs.Stepped.{Stepped};
ghost use Rattle.wm_law.specs.declared.state.State.{State};
ghost use Rattle.wm_tables.specs.Changes.{call_change, AreStepChanges, IsTaken};

use crate::Counts;
use crate::calls::call_change;
use crate::counting::put_counters;
use crate::jobs::put_jobs;
use std::alloc::Global;
use wm_base::NoMemory;
use wm_jobs::JobTable;
use wm_law::{Call, Reply};
use wm_traits::RowChange;

// What the call changes.
fn first_changes(
    alloc: Global,
    removed: Option<u32>,
    call: &Call,
    reply: &Reply,
) -> Result<Vec<RowChange>, NoMemory>
    ensures { IfOk result (λ changes. changes.items ≡ option_to_list (call_change removed call.now reply.now)) }
{
    let mut changes = Vec::new(alloc);
    if let Some(change) = call_change(alloc, removed, call, reply)? {
        changes.push(change)?;
    }
    Ok(changes)
}

/// The changes of a step, by its call and its reply, the table of jobs after it, which was marked just before it, the number
/// that `removed_number` told then, and the numbers that came next before and after it. Of the jobs, those alone are looked at
/// that were touched or are new. An `Err` is want of memory.
pub fn step_changes(
    alloc: Global,
    call: &Call,
    reply: &Reply,
    jobs: &JobTable,
    removed: Option<u32>,
    before: Counts,
    after: Counts,
) -> Result<Vec<RowChange>, NoMemory>
    ensures { (s : State) (t : Stepped) → IsTaken s call.now t reply.now jobs.now removed before after → IfOk result (λ changes. AreStepChanges s call.now t changes.items) }
{
    let mut changes = first_changes(alloc, removed, call, reply)?;
    put_jobs(alloc, jobs, &mut changes)?;
    put_counters(alloc, before, after, &mut changes)?;
    Ok(changes)
}
