// Why a server ends early.
ghost use Rattle.std.specs.Prelude.{◌≡◌};
ghost use Rattle.wm_serve.specs.Halts.{halt_of_call, halt_of_monitor, least, lesser, status_of};
ghost use Rattle.wm_serve.specs.declared.halt.Halt.TheVariants.{NoMemory};

use std::alloc::AllocError;
use wm_floor::{CallFault, MonitorFault};

/// Why a server ends early.
#[derive(Clone, Copy)]
pub enum Halt {
    /// The output couldn't be written.
    WriteFault,
    /// The keeper of the rows failed.
    KeeperFault,
    NoMemory,
    /// The history takes no such call.
    LogFull,
    /// A spawner couldn't kill or look.
    WaitFault,
    /// A look for a connection failed.
    ListenFault,
}

impl From<AllocError> for Halt {
    ghost from_gives = { λ _ e. e ≡ NoMemory };

    fn from(_e: AllocError) -> Halt {
        Halt::NoMemory
    }
}

impl From<CallFault> for Halt {
    ghost use Rattle.wm_serve.specs.Halts.{halt_of_call};

    ghost from_gives = { λ fault e. e ≡ halt_of_call fault };

    fn from(fault: CallFault) -> Halt {
        match fault {
            CallFault::KeeperFault => Halt::KeeperFault,
            CallFault::LogFull(_) => Halt::LogFull,
            CallFault::NoMemory => Halt::NoMemory,
        }
    }
}

impl From<MonitorFault> for Halt {
    ghost use Rattle.wm_serve.specs.Halts.{halt_of_monitor};

    ghost from_gives = { λ fault e. e ≡ halt_of_monitor fault };

    fn from(fault: MonitorFault) -> Halt {
        match fault {
            MonitorFault::WaitFault => Halt::WaitFault,
            MonitorFault::KeeperFault => Halt::KeeperFault,
            MonitorFault::LogFull(_) => Halt::LogFull,
            MonitorFault::NoMemory => Halt::NoMemory,
        }
    }
}

impl Halt {
    ghost use Rattle.wm_serve.specs.Halts.{status_of};

    /// The status that the server ends with.
    pub fn status(self) -> u8
        ensures { result ≡ status_of self }
    {
        match self {
            Halt::WriteFault => 4,
            Halt::KeeperFault => 5,
            Halt::NoMemory => 6,
            Halt::LogFull => 7,
            Halt::WaitFault => 8,
            Halt::ListenFault => 10,
        }
    }
}

/// Of two reasons the one with the lesser status.
pub(crate) fn least(one: Halt, other: Halt) -> Halt
    ensures { result ≡ least one other }
{
    if other.status() < one.status() {
        other
    } else {
        one
    }
}

/// The same of reasons that may lack.
pub(crate) fn lesser(one: Option<Halt>, other: Option<Halt>) -> Option<Halt>
    ensures { result ≡ lesser one other }
{
    match (one, other) {
        (None, other) => other,
        (one, None) => one,
        (Some(one), Some(other)) => Some(least(one, other)),
    }
}
