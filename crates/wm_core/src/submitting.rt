// SBMJOB: a job is made.
ghost use Rattle.std.specs.Prelude.{◌≡◌, IfOk, unwrap_or};
ghost use Rattle.wm_law.specs.Submitting.{queue_of, or_described};

use crate::Machine;
use std::alloc::Global;
use wm_base::{
    How, JobName, JobNumber, Kind, Moment, Name, NoMemory, QName, Refusal, Serial, Text,
};
use wm_clwords::Request;
use wm_desc::Jobd;
use wm_law::{Job, JobKind, Phase, Reply, Sbmjob, Wish};
use wm_subsystems::is_on;

/// All numbers from 1 to below this are job numbers.
pub(crate) const NUMBERS_END: u32 = 1_000_000;

/// All numbers from 1 to below this are serials, and places.
pub(crate) const SERIALS_END: u64 = 1_000_000_000_000_000_000;

// The queue of a submitted job.
fn queue_of(command: &Sbmjob, jobd: &Jobd) -> QName
    ensures { result ≡ queue_of command.now jobd.now }
{
    command.jobq.unwrap_or(jobd.jobq)
}

// A request of a text, where there is one.
pub(crate) fn read_request(alloc: Global, text: &Option<Text>) -> Result<Option<Request>, NoMemory>
    ensures { IfOk result (λ request. request ≡ text.now) }
{
    match text {
        None => Ok(None),
        Some(text) => Ok(Some(Request::read(alloc, text.clone()?)?)),
    }
}

// The request of a submitted job: that of the command, where it says one, else that of the description.
fn request_of(alloc: Global, command: &Sbmjob, jobd: &Jobd) -> Result<Option<Request>, NoMemory>
    ensures { IfOk result (λ request. request ≡ or_described command.now.rqsdta jobd.now.rqsdta) }
{
    match command.rqsdta {
        Some(_) => read_request(alloc, &command.rqsdta),
        None => read_request(alloc, &jobd.rqsdta),
    }
}

// Its routing data.
fn routing_data_of(command: &Sbmjob, jobd: &Jobd) -> Result<Text, NoMemory>
    ensures { IfOk result (λ text. text ≡ unwrap_or command.now.rtgdta jobd.now.rtgdta) }
{
    match &command.rtgdta {
        Some(text) => text.clone(),
        None => jobd.rtgdta.clone(),
    }
}

impl Machine {
    ghost use Rattle.std.specs.Prelude.{◌≡◌, OnOk, OnErr, IfOk, is_some, true};
    ghost use Rattle.wm_law.specs.Counts.{is_waiting};
    ghost use Rattle.wm_law.specs.Fit.{IsSubmission};
    ghost use Rattle.wm_law.specs.Submitting.{has_numbers, submitted_job, entered, submit};

    fn has_numbers(&self) -> bool
        ensures { result ≡ has_numbers self.now.state }
    {
        self.next_number >= 1
            && self.next_number < NUMBERS_END
            && self.table.next_serial() < SERIALS_END
            && self.table.next_place() < SERIALS_END
    }

    // A submitted job, with the next number, serial and place, which is due at a moment.
    fn submitted_job(
        &self,
        alloc: Global,
        user: &Name,
        command: &Sbmjob,
        jobd: &Jobd,
        due: Moment,
    ) -> Result<Job, NoMemory>
        requires { has_numbers self.now.state ≡ true }
        ensures { IfOk result (λ job. job ≡ submitted_job self.now.state user.now command.now jobd.now due) }
    {
        let rtgdta = routing_data_of(command, jobd)?;
        let rqsdta = request_of(alloc, command, jobd)?;
        Ok(Job {
            serial: Serial::new(self.table.next_serial()),
            job: JobName {
                number: JobNumber::new(self.next_number),
                user: *user,
                name: command.job.unwrap_or(command.jobd.name),
            },
            kind: JobKind::Bch,
            jobq: Some(queue_of(command, jobd)),
            pty: command.jobpty.unwrap_or(jobd.pty),
            place: self.table.next_place(),
            rtgdta,
            rqsdta,
            held: command.hold.unwrap_or(jobd.hold),
            due,
            phase: Phase::Waiting,
            how: How::NotYet,
            wish: Wish::NoWish,
            uses: 0,
            evoke: false,
        })
    }

    // The job goes last among the jobs, and its numbers are taken.
    fn enter(&mut self, job: Job) -> Result<(), NoMemory>
        requires numbers { has_numbers self.old.state ≡ true }
        requires waits { is_waiting job.phase ≡ true }
        requires queue { is_some job.jobq ≡ true }
        requires serial { job.serial ≡ self.old.state.next_serial }
        requires place { job.place ≡ self.old.state.next_place }
        ensures ok { OnOk result (self.new.state ≡ entered self.old.state job) }
        ensures marks { OnOk result (self.new.marks ≡ self.old.marks) }
        ensures err { OnErr result (self.new ≡ self.old) }
    {
        self.table.reserve(1)?;
        self.table.push(job);
        self.next_number += 1;
        Ok(())
    }

    /// SBMJOB: a Waiting job, which is due by its schedule. An `Err` is want of memory and leaves the state.
    pub(crate) fn submit(
        &mut self,
        alloc: Global,
        user: &Name,
        command: &Sbmjob,
    ) -> Result<Reply, NoMemory>
        requires { IsSubmission command.now }
        ensures reply { IfOk result (λ r. r ≡ (submit self.old.state user.now command.now).reply) }
        ensures state { OnOk result (self.new.state ≡ (submit self.old.state user.now command.now).state) }
        ensures marks { OnOk result (self.new.marks ≡ self.old.marks) }
        ensures err { OnErr result (self.new ≡ self.old) }
    {
        let machine = &*self;
        if !is_on(&machine.power) {
            return Ok(Reply::No(Refusal::PoweringDown));
        }
        let Some(jobd) = machine.objects.jobds.object(&command.jobd) else {
            return Ok(Reply::No(Refusal::NoObject(Kind::Jobd)));
        };
        let queue = queue_of(command, jobd);
        if machine.objects.jobqs.object(&queue).is_none() {
            return Ok(Reply::No(Refusal::NoObject(Kind::Jobq)));
        }
        let due = match machine.scheduled(command.scddate, command.scdtime) {
            Ok(due) => due,
            Err(refusal) => return Ok(Reply::No(refusal)),
        };
        if !machine.has_numbers() {
            return Ok(Reply::No(Refusal::NumbersUsed));
        }
        let job = machine.submitted_job(alloc, user, command, jobd, due)?;
        let name = job.job;
        self.enter(job)?;
        Ok(Reply::Submitted(name, queue))
    }
}
