// HLDJOB and RLSJOB: a job that waits is held, or released.
use crate::Machine;
use crate::reports::phase_word;
use wm_base::{NoMemory, Refusal};
use wm_law::{Job, JobRef, Phase, Reply};

impl Machine {
    ghost use Rattle.std.specs.Prelude.{◌≡◌, MatchResult, Ok, Err, OnOk, OnErr, IfOk};
    ghost use Rattle.wm_law.specs.Holding.{hold_job, release_job};
    ghost use Rattle.wm_law.specs.Named.{waiting_named};

    // The Waiting job that a reference names.
    pub(crate) fn waiting_named(&self, reference: &JobRef) -> Result<&Job, Refusal>
        ensures { MatchResult result (λ job. waiting_named self.now.state reference.now ≡ Ok job.now) (λ x. waiting_named self.now.state reference.now ≡ Err x) }
    {
        let job = match self.table.named(reference) {
            Ok(job) => job,
            Err(refusal) => return Err(refusal),
        };
        match job.phase {
            Phase::Waiting => Ok(job),
            _ => Err(Refusal::WrongPhase(phase_word(&job.phase))),
        }
    }

    /// HLDJOB. An `Err` is want of memory and leaves the state.
    pub(crate) fn hold_job(&mut self, reference: &JobRef) -> Result<Reply, NoMemory>
        ensures reply { IfOk result (λ r. r ≡ (hold_job self.old.state reference.now).reply) }
        ensures state { OnOk result (self.new.state ≡ (hold_job self.old.state reference.now).state) }
        ensures marks { OnOk result (self.new.marks ≡ self.old.marks) }
        ensures err { OnErr result (self.new ≡ self.old) }
    {
        let job = match self.waiting_named(reference) {
            Ok(job) => job,
            Err(refusal) => return Ok(Reply::No(refusal)),
        };
        if job.held {
            return Ok(Reply::No(Refusal::HeldAlready));
        }
        let serial = job.serial;
        let name = job.job;
        self.table.reserve(0)?;
        self.table.set_held(serial, true);
        Ok(Reply::Held(name))
    }

    /// RLSJOB. An `Err` is want of memory and leaves the state.
    pub(crate) fn release_job(&mut self, reference: &JobRef) -> Result<Reply, NoMemory>
        ensures reply { IfOk result (λ r. r ≡ (release_job self.old.state reference.now).reply) }
        ensures state { OnOk result (self.new.state ≡ (release_job self.old.state reference.now).state) }
        ensures marks { OnOk result (self.new.marks ≡ self.old.marks) }
        ensures err { OnErr result (self.new ≡ self.old) }
    {
        let job = match self.waiting_named(reference) {
            Ok(job) => job,
            Err(refusal) => return Ok(Reply::No(refusal)),
        };
        if !job.held {
            return Ok(Reply::No(Refusal::NotHeld));
        }
        let serial = job.serial;
        let name = job.job;
        self.table.reserve(0)?;
        self.table.set_held(serial, false);
        Ok(Reply::Released(name))
    }
}
