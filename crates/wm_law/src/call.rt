// The calls of the machine, its replies, and the entries of its history.
use crate::boxed::Boxed;
use crate::command::Command;
use wm_base::{Asked, Exit, JobName, Moment, Name, QName, Refusal, Serial, StartCause};

/// What is called: a command by a user, or a call of a monitor.
#[derive(Drop)]
pub enum Call {
    Change { user: Name, command: Boxed<Command> },
    Hand,
    Started(Serial),
    StartFailed(Serial, StartCause),
    Finished(Serial, Exit),
    UseDone(Serial),
    Tick,
}

/// What the machine answers.
#[derive(Drop)]
pub enum Reply {
    /// An object was made, or a subsystem description was changed.
    Made,
    SbsStarted(QName),
    SbsEnding(QName),
    Submitted(JobName, QName),
    Held(JobName),
    Released(JobName),
    Changed(JobName),
    JobEnding(JobName),
    /// The job waited, and has ended.
    JobEnded(JobName),
    QueueHeld,
    QueueReleased,
    /// How many jobs it ended.
    QueueCleared(u32),
    PreStarted,
    PreEnding,
    /// The job that got the request.
    Evoked(JobName),
    /// The request's position among those that wait for its entry.
    EvokeWaits(u32),
    UseEnded(JobName),
    PowerDown,
    Order(Boxed<Asked>),
    Nothing,
    Noted,
    No(Refusal),
}

/// One entry of the history: the pass that called, its call, the moment and the reply.
#[derive(Drop)]
pub struct Entry {
    pub caller: u32,
    pub call: Call,
    pub moment: Moment,
    pub reply: Reply,
}

impl Reply {
    ghost use Rattle.std.specs.Prelude.{◌≡◌};
    ghost use Rattle.std.specs.Option.{option_copied};
    ghost use Rattle.wm_law.specs.History.{order_in};

    /// What it orders.
    pub fn order(&self) -> Option<&Asked>
        ensures { option_copied result ≡ order_in self.now }
    {
        match self {
            Reply::Order(asked) => Some(asked.get()),
            _ => None,
        }
    }
}
