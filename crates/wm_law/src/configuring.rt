// Which commands and calls configure, and what.
use crate::call::Call;
use crate::command::Command;
use crate::configured::Configured;
use wm_base::Kind;

impl Command {
    ghost use Rattle.std.specs.Prelude.{◌≡◌};
    ghost use Rattle.wm_law.specs.Configured.{configured};

    /// What it may change of the objects and the held queues, where it is such a command.
    pub fn configured(&self) -> Option<Configured>
        ensures { result ≡ configured self.now }
    {
        match self {
            Command::Crtcls(c) => Some(Configured::Object(Kind::Cls, c.cls)),
            Command::Crtjobq(c) => Some(Configured::Object(Kind::Jobq, c.jobq)),
            Command::Crtpgmref(c) => Some(Configured::Object(Kind::Pgm, c.pgm)),
            Command::Crtjobd(c) => Some(Configured::Object(Kind::Jobd, c.jobd)),
            Command::Crtsbsd(c) => Some(Configured::Object(Kind::Sbsd, c.sbsd)),
            Command::Addjobqe(c) => Some(Configured::Description(c.sbsd)),
            Command::Addrtge(c) => Some(Configured::Description(c.sbsd)),
            Command::Addaje(c) => Some(Configured::Description(c.sbsd)),
            Command::Addpje(c) => Some(Configured::Description(c.sbsd)),
            Command::Rmvjobqe(c) => Some(Configured::Description(c.sbsd)),
            Command::Rmvrtge(c) => Some(Configured::Description(c.sbsd)),
            Command::Rmvaje(c) => Some(Configured::Description(c.sbsd)),
            Command::Rmvpje(c) => Some(Configured::Description(c.sbsd)),
            Command::Hldjobq(_) | Command::Rlsjobq(_) => Some(Configured::HeldQueues),
            _ => None,
        }
    }
}

impl Call {
    ghost use Rattle.std.specs.Prelude.{◌≡◌};
    ghost use Rattle.wm_law.specs.Configured.{configured_by};

    /// What its command may change of the objects and the held queues; no other call changes any of these.
    pub fn configured(&self) -> Option<Configured>
        ensures { result ≡ configured_by self.now }
    {
        match self {
            Call::Change { command, .. } => command.get().configured(),
            _ => None,
        }
    }
}
