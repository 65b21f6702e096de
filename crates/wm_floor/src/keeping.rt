// How rows are kept: those that changed, in one call of the keeper.
ghost use Rattle.std.specs.Prelude.{◌≡◌, List, IfOk, OnOk, OnErr};
ghost use Rattle.wm_traits.specs.declared.row.RowChange.{RowChange};
ghost use Rattle.wm_traits.specs.Cause.{HasKeepCause};
ghost use Rattle.wm_law.specs.Stepped.{Stepped};
ghost use Rattle.wm_law.specs.declared.state.State.{State};
ghost use Rattle.wm_tables.specs.Changes.{counts_of, AreStepChanges};
ghost use Rattle.wm_floor.specs.Keeping.{telling, IsApplied, IsLeft};
ghost use Rattle.wm_floor.specs.Taken.{IsLastStep};

use crate::copying::copied;
use std::alloc::Global;
use wm_base::NoMemory;
use wm_core::Core;
use wm_law::{Call, Reply};
use wm_tables::{Counts, step_changes};
use wm_traits::{KeepFault, Keeper, RowChange};

/// The numbers that the next job has.
pub(crate) fn counts(core: &Core) -> Counts
    ensures { result ≡ counts_of core.now.state }
{
    let jobs = core.jobs();
    Counts {
        next_number: core.next_number(),
        next_place: jobs.next_place(),
        next_serial: jobs.next_serial(),
    }
}

/// Makes the changes in one call of the keeper, unless there are none.
pub(crate) fn apply<K: Keeper>(keeper: &mut K, changes: &[RowChange]) -> Result<(), KeepFault>
    ensures ok { OnOk result (IsApplied changes.now (telling K.tables K.trail keeper.old) (telling K.tables K.trail keeper.new)) }
    ensures err { OnErr result (IsLeft (telling K.tables K.trail keeper.old) (telling K.tables K.trail keeper.new)) }
    ensures cause { HasKeepCause (K.faults keeper.old) (K.faults keeper.new) result }
{
    if changes.is_empty() {
        return Ok(());
    }
    keeper.apply(changes)?;
    Ok(())
}

// The rows that the last step changed.
fn last_changes(
    alloc: Global,
    core: &Core,
    call: &Call,
    reply: &Reply,
    removed: Option<u32>,
    before: Counts,
) -> Result<Vec<RowChange>, NoMemory>
    ensures { (s : State) (t : Stepped) → IsLastStep s call.now t core.now reply.now removed before → IfOk result (λ changes. AreStepChanges s call.now t changes.items) }
{
    step_changes(
        alloc,
        call,
        reply,
        core.jobs(),
        removed,
        before,
        counts(core),
    )
}

// Keeps the rows that the last step changed.
fn keep_step<K: Keeper>(
    alloc: Global,
    keeper: &mut K,
    core: &Core,
    call: &Call,
    reply: &Reply,
    removed: Option<u32>,
    before: Counts,
) -> Result<(), KeepFault>
    ensures ok { (s : State) (t : Stepped) → IsLastStep s call.now t core.now reply.now removed before →
        OnOk result ((changes : List RowChange) × AreStepChanges s call.now t changes × IsApplied changes (telling K.tables K.trail keeper.old) (telling K.tables K.trail keeper.new)) }
    ensures err { OnErr result (IsLeft (telling K.tables K.trail keeper.old) (telling K.tables K.trail keeper.new)) }
    ensures cause { HasKeepCause (K.faults keeper.old) (K.faults keeper.new) result }
{
    let changes = last_changes(alloc, core, call, reply, removed, before)?;
    apply(keeper, &changes)?;
    Ok(())
}

/// Copies the reply of the last step, and then keeps the rows that the step changed. It answers the copy.
pub(crate) fn keep_copied<K: Keeper>(
    alloc: Global,
    keeper: &mut K,
    core: &Core,
    call: &Call,
    reply: &Reply,
    removed: Option<u32>,
    before: Counts,
) -> Result<Reply, KeepFault>
    ensures copy { IfOk result (λ copy. copy ≡ reply.now) }
    ensures ok { (s : State) (t : Stepped) → IsLastStep s call.now t core.now reply.now removed before →
        OnOk result ((changes : List RowChange) × AreStepChanges s call.now t changes × IsApplied changes (telling K.tables K.trail keeper.old) (telling K.tables K.trail keeper.new)) }
    ensures err { OnErr result (IsLeft (telling K.tables K.trail keeper.old) (telling K.tables K.trail keeper.new)) }
    ensures cause { HasKeepCause (K.faults keeper.old) (K.faults keeper.new) result }
{
    let copy = copied(alloc, reply)?;
    match keep_step(alloc, keeper, core, call, reply, removed, before) {
        Ok(()) => Ok(copy),
        Err(fault) => {
            // By a call, since a reply that goes out of scope is taken apart here, which is dear to prove.
            drop(copy);
            Err(fault)
        }
    }
}
