// The commands that make objects and change subsystem descriptions.
use crate::Machine;
use std::alloc::Global;
use wm_base::NoMemory;
use wm_law::{Command, Reply};
use wm_making::change_objects;

impl Machine {
    ghost use Rattle.std.specs.Prelude.{◌≡◌, OnOk, OnErr, IfOk};
    ghost use Rattle.wm_law.specs.Fit.{IsCommand};
    ghost use Rattle.wm_making.specs.Making.{change_objects};

    /// Applies a command that makes an object, or adds or removes an entry. An `Err` is want of memory and leaves the state.
    pub(crate) fn change_objects(
        &mut self,
        alloc: Global,
        command: &Command,
    ) -> Result<Reply, NoMemory>
        requires { IsCommand command.now }
        ensures reply { IfOk result (λ r. r ≡ (change_objects self.old.state command.now).reply) }
        ensures state { OnOk result (self.new.state ≡ (change_objects self.old.state command.now).state) }
        ensures marks { OnOk result (self.new.marks ≡ self.old.marks) }
        ensures err { OnErr result (self.new ≡ self.old) }
    {
        let reply = change_objects(alloc, &mut self.objects, &self.started, command)?;
        Ok(reply)
    }
}
