// HLDJOBQ, RLSJOBQ and CLRJOBQ: a queue is held or released, or its jobs end.
use crate::Machine;
use wm_base::{Kind, NoMemory, QName, Refusal};
use wm_law::Reply;

impl Machine {
    ghost use Rattle.std.specs.Prelude.{◌≡◌, IfOk, OnOk, OnErr};
    ghost use Rattle.wm_law.specs.Queues.{hold_queue, release_queue, clear_queue};

    /// HLDJOBQ. An `Err` is want of memory and leaves the state.
    pub(crate) fn hold_queue(&mut self, queue: &QName) -> Result<Reply, NoMemory>
        ensures reply { IfOk result (λ r. r ≡ (hold_queue self.old.state queue.now).reply) }
        ensures state { OnOk result (self.new.state ≡ (hold_queue self.old.state queue.now).state) }
        ensures marks { OnOk result (self.new.marks ≡ self.old.marks) }
        ensures err { OnErr result (self.new ≡ self.old) }
    {
        if self.objects.jobqs.object(queue).is_none() {
            return Ok(Reply::No(Refusal::NoObject(Kind::Jobq)));
        }
        if self.held.contains(queue) {
            return Ok(Reply::No(Refusal::HeldAlready));
        }
        self.held.insert(*queue)?;
        Ok(Reply::QueueHeld)
    }

    /// RLSJOBQ. It takes no memory.
    pub(crate) fn release_queue(&mut self, queue: &QName) -> Reply
        ensures reply { result ≡ (release_queue self.old.state queue.now).reply }
        ensures state { self.new.state ≡ (release_queue self.old.state queue.now).state }
        ensures marks { self.new.marks ≡ self.old.marks }
    {
        if self.objects.jobqs.object(queue).is_none() {
            return Reply::No(Refusal::NoObject(Kind::Jobq));
        }
        if !self.held.contains(queue) {
            return Reply::No(Refusal::NotHeld);
        }
        self.held.remove(queue);
        Reply::QueueReleased
    }

    /// CLRJOBQ: each job that waits on the queue ends. It takes no memory.
    pub(crate) fn clear_queue(&mut self, queue: &QName) -> Reply
        ensures reply { result ≡ (clear_queue self.old.state queue.now).reply }
        ensures state { self.new.state ≡ (clear_queue self.old.state queue.now).state }
        ensures marks { self.new.marks ≡ self.old.marks }
    {
        if self.objects.jobqs.object(queue).is_none() {
            return Reply::No(Refusal::NoObject(Kind::Jobq));
        }
        let count = self.table.clear(queue);
        Reply::QueueCleared(count)
    }
}
