// Copies of replies.
ghost use Rattle.std.specs.Prelude.{◌≡◌, IfOk};
ghost use Rattle.wm_law.specs.declared.call.Reply.TheVariants.{Order};

use std::alloc::Global;
use wm_base::{Asked, NoMemory};
use wm_law::{Boxed, Reply};

// A copy of an order, which alone needs memory.
fn order(alloc: Global, asked: &Asked) -> Result<Reply, NoMemory>
    ensures { IfOk result (λ copy. copy ≡ Order asked.now) }
{
    let copy = asked.clone()?;
    let kept = Boxed::new(alloc, copy)?;
    Ok(Reply::Order(kept))
}

/// A copy of a reply. An `Err` is want of memory.
pub(crate) fn copied(alloc: Global, reply: &Reply) -> Result<Reply, NoMemory>
    ensures { IfOk result (λ copy. copy ≡ reply.now) }
{
    let copy = match reply {
        Reply::Made => Reply::Made,
        Reply::SbsStarted(sbs) => Reply::SbsStarted(*sbs),
        Reply::SbsEnding(sbs) => Reply::SbsEnding(*sbs),
        Reply::Submitted(job, jobq) => Reply::Submitted(*job, *jobq),
        Reply::Held(job) => Reply::Held(*job),
        Reply::Released(job) => Reply::Released(*job),
        Reply::Changed(job) => Reply::Changed(*job),
        Reply::JobEnding(job) => Reply::JobEnding(*job),
        Reply::JobEnded(job) => Reply::JobEnded(*job),
        Reply::QueueHeld => Reply::QueueHeld,
        Reply::QueueReleased => Reply::QueueReleased,
        Reply::QueueCleared(count) => Reply::QueueCleared(*count),
        Reply::PreStarted => Reply::PreStarted,
        Reply::PreEnding => Reply::PreEnding,
        Reply::Evoked(job) => Reply::Evoked(*job),
        Reply::EvokeWaits(position) => Reply::EvokeWaits(*position),
        Reply::UseEnded(job) => Reply::UseEnded(*job),
        Reply::PowerDown => Reply::PowerDown,
        Reply::Order(asked) => order(alloc, asked.get())?,
        Reply::Nothing => Reply::Nothing,
        Reply::Noted => Reply::Noted,
        Reply::No(refusal) => Reply::No(*refusal),
    };
    Ok(copy)
}
