// CHGJOB: a job that waits gets another queue, priority or schedule.
ghost use Rattle.std.specs.Prelude.{◌≡◌};
ghost use Rattle.wm_law.specs.Changing.{is_queue, keeps_queue, stays};

use crate::Machine;
use crate::submitting::SERIALS_END;
use wm_base::{Kind, NoMemory, QName, Refusal};
use wm_law::{Chgjob, Job, Reply};

// Whether a queue that is asked for is the present one.
fn is_queue(queue: &QName, present: &Option<QName>) -> bool
    ensures { result ≡ is_queue queue.now present.now }
{
    match present {
        None => false,
        Some(present) => queue == present,
    }
}

fn keeps_queue(wanted: &Option<QName>, present: &Option<QName>) -> bool
    ensures { result ≡ keeps_queue wanted.now present.now }
{
    match wanted {
        None => true,
        Some(queue) => is_queue(queue, present),
    }
}

// Whether queue and priority stay.
fn stays(command: &Chgjob, job: &Job) -> bool
    ensures { result ≡ stays command.now job.now }
{
    keeps_queue(&command.jobq, &job.jobq) && command.jobpty.unwrap_or(job.pty) == job.pty
}

impl Machine {
    ghost use Rattle.std.specs.Prelude.{◌≡◌, OnOk, OnErr, IfOk};
    ghost use Rattle.wm_law.specs.Changing.{finds_queue, change_job};
    ghost use Rattle.wm_law.specs.Fit.{IsJobChange};

    // Whether the queue that is asked for is an object, where one is.
    fn finds_queue(&self, wanted: &Option<QName>) -> bool
        ensures { result ≡ finds_queue self.now.state wanted.now }
    {
        match wanted {
            None => true,
            Some(queue) => self.objects.jobqs.object(queue).is_some(),
        }
    }

    /// CHGJOB. An `Err` is want of memory and leaves the state.
    pub(crate) fn change_job(&mut self, command: &Chgjob) -> Result<Reply, NoMemory>
        requires { IsJobChange command.now }
        ensures reply { IfOk result (λ r. r ≡ (change_job self.old.state command.now).reply) }
        ensures state { OnOk result (self.new.state ≡ (change_job self.old.state command.now).state) }
        ensures marks { OnOk result (self.new.marks ≡ self.old.marks) }
        ensures err { OnErr result (self.new ≡ self.old) }
    {
        let job = match self.waiting_named(&command.job) {
            Ok(job) => job,
            Err(refusal) => return Ok(Reply::No(refusal)),
        };
        if !self.finds_queue(&command.jobq) {
            return Ok(Reply::No(Refusal::NoObject(Kind::Jobq)));
        }
        let due = match self.rescheduled(job.due, command.scddate, command.scdtime) {
            Ok(due) => due,
            Err(refusal) => return Ok(Reply::No(refusal)),
        };
        let serial = job.serial;
        let name = job.job;
        if stays(command, job) {
            self.table.reserve(0)?;
            self.table.set_due(serial, due);
            return Ok(Reply::Changed(name));
        }
        if self.table.next_place() >= SERIALS_END {
            return Ok(Reply::No(Refusal::NumbersUsed));
        }
        self.table.reserve(0)?;
        self.table.move_to(serial, command, due);
        Ok(Reply::Changed(name))
    }
}
