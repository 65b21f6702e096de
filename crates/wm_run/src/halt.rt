// Why a run ends early.
ghost use Rattle.std.specs.Prelude.{◌≡◌};
ghost use Rattle.wm_run.specs.declared.halt.Halt.TheVariants.{NoMemory};

use std::alloc::{AllocError, AllocFailed};
use wm_floor::{CallFault, MonitorFault};

/// Why a run ends early.
#[derive(Clone, Copy)]
pub enum Halt {
    /// The input couldn't be read.
    ReadFault,
    /// The output couldn't be written.
    WriteFault,
    /// The keeper of the rows failed.
    KeeperFault,
    NoMemory,
    /// The log takes no such call.
    LogFull,
    /// The spawner couldn't kill or look.
    WaitFault,
    /// The input has more than 1,000,000,000 bytes.
    InputFull,
}

impl From<AllocError> for Halt {
    ghost from_gives = { λ _ e. e ≡ NoMemory };

    fn from(_e: AllocError) -> Halt {
        Halt::NoMemory
    }
}

impl<T: Drop> From<AllocFailed<T>> for Halt {
    ghost from_gives = { λ _ e. e ≡ NoMemory };

    fn from(_e: AllocFailed<T>) -> Halt {
        Halt::NoMemory
    }
}

impl From<CallFault> for Halt {
    ghost use Rattle.wm_run.specs.Halt.{halt_of_call};

    ghost from_gives = { λ fault e. e ≡ halt_of_call fault };

    fn from(fault: CallFault) -> Halt {
        match fault {
            CallFault::KeeperFault => Halt::KeeperFault,
            CallFault::LogFull(_) => Halt::LogFull,
            CallFault::NoMemory => Halt::NoMemory,
        }
    }
}

impl From<MonitorFault> for Halt {
    ghost use Rattle.wm_run.specs.Halt.{halt_of};

    ghost from_gives = { λ fault e. e ≡ halt_of fault };

    fn from(fault: MonitorFault) -> Halt {
        match fault {
            MonitorFault::WaitFault => Halt::WaitFault,
            MonitorFault::KeeperFault => Halt::KeeperFault,
            MonitorFault::LogFull(_) => Halt::LogFull,
            MonitorFault::NoMemory => Halt::NoMemory,
        }
    }
}

impl Halt {
    ghost use Rattle.wm_run.specs.Halt.{status_of};

    /// The status that the run ends with.
    pub fn status(self) -> u8
        ensures { result ≡ status_of self }
    {
        match self {
            Halt::ReadFault => 3,
            Halt::WriteFault => 4,
            Halt::KeeperFault => 5,
            Halt::NoMemory => 6,
            Halt::LogFull => 7,
            Halt::WaitFault => 8,
            Halt::InputFull => 11,
        }
    }
}
