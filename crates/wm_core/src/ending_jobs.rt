// ENDJOB: a job ends on its queue, or is to end.
use crate::Machine;
use wm_base::{EndCause, NoMemory};
use wm_law::{Endjob, Reply};
use wm_subsystems::{Ending, end_job};

impl Machine {
    ghost use Rattle.std.specs.Prelude.{◌≡◌, OnOk, OnErr, IfOk};
    ghost use Rattle.wm_law.specs.Endings.{end_job};

    /// ENDJOB. An `Err` is want of memory and leaves the state.
    pub(crate) fn end_job(&mut self, command: &Endjob) -> Result<Reply, NoMemory>
        ensures reply { IfOk result (λ r. r ≡ (end_job self.old.state command.now).reply) }
        ensures state { OnOk result (self.new.state ≡ (end_job self.old.state command.now).state) }
        ensures marks { OnOk result (self.new.marks ≡ self.old.marks) }
        ensures err { OnErr result (self.new ≡ self.old) }
    {
        let job = match self.table.named(&command.job) {
            Ok(job) => job,
            Err(refusal) => return Ok(Reply::No(refusal)),
        };
        let ending = match end_job(job, command, self.table.clock()) {
            Ok(ending) => ending,
            Err(refusal) => return Ok(Reply::No(refusal)),
        };
        let serial = job.serial;
        let name = job.job;
        self.table.reserve(0)?;
        match ending {
            Ending::OnQueue => {
                self.table.end_waiting(serial, EndCause::EndedOnQueue);
                Ok(Reply::JobEnded(name))
            }
            Ending::Wished(wish) => {
                self.table.set_wish(serial, wish);
                Ok(Reply::JobEnding(name))
            }
        }
    }
}
