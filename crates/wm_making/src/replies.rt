// The replies to what the objects answered.
ghost use Rattle.std.specs.Prelude.{◌≡◌, Option, IfOk, OnOk, OnErr};
ghost use Rattle.wm_base.specs.declared.refusal.Refusal.{Refusal};
ghost use Rattle.wm_desc.specs.declared.objects.Objects.{Objects};
ghost use Rattle.wm_desc.specs.Refusals.{IsAnswer, answer_of};
ghost use Rattle.wm_law.specs.Making.{made_reply, made_objects};

use std::alloc::AllocError;
use wm_base::{NoMemory, Refusal};
use wm_desc::DescFault;
use wm_law::Reply;

// The reply to what the objects answered.
pub(crate) fn made(answer: Result<(), DescFault>) -> Result<Reply, NoMemory>
    ensures reply { (refusal : Option Refusal) → IsAnswer refusal answer → IfOk result (λ r. r ≡ made_reply refusal) }
    ensures objects { (refusal : Option Refusal) (before after now : Objects) → IsAnswer refusal answer
        → OnOk answer (now ≡ after) → OnErr answer (now ≡ before) → OnOk result (now ≡ made_objects before after refusal) × OnErr result (now ≡ before) }
{
    match answer {
        Ok(()) => Ok(Reply::Made),
        Err(DescFault::No(refusal)) => Ok(Reply::No(refusal)),
        Err(DescFault::NoMemory) => Err(AllocError),
    }
}

// The same where no memory is taken.
pub(crate) fn removed(answer: Result<(), Refusal>) -> Reply
    ensures reply { (refusal : Option Refusal) → answer ≡ answer_of refusal → result ≡ made_reply refusal }
    ensures objects { (refusal : Option Refusal) (before after now : Objects) → answer ≡ answer_of refusal
        → OnOk answer (now ≡ after) → OnErr answer (now ≡ before) → now ≡ made_objects before after refusal }
{
    match answer {
        Ok(()) => Reply::Made,
        Err(refusal) => Reply::No(refusal),
    }
}
