// Why a tree is no command.

use std::alloc::{AllocError, AllocFailed};
use thiserror::Error;
use wm_base::Key;

/// Why a tree is read as no command. Places are counted from 0.
#[derive(Clone, Copy, Debug, Error)]
pub enum CmdFault {
    #[error("no such command")]
    UnknownCommand,
    #[error("no such key at {0}")]
    UnknownKeyword(u32),
    #[error("the key at {0} was given before")]
    Twice(u32),
    #[error("a key is missing")]
    Missing(Key),
    #[error("the value at {0} may not stand there")]
    BadValue(u32),
    #[error("too many values at {0}")]
    TooManyValues(u32),
    #[error("two keys exclude one another")]
    Conflict(Key, Key),
    #[error("no CALL at {0}")]
    NotCall(u32),
    #[error("out of memory")]
    NoMemory,
}

impl From<AllocError> for CmdFault {
    ghost use Rattle.std.specs.Prelude.{◌≡◌};
    ghost use Rattle.wm_command.specs.declared.fault.CmdFault.TheVariants.{NoMemory};

    ghost from_gives = { λ _ e. e ≡ NoMemory };

    fn from(_e: AllocError) -> CmdFault {
        CmdFault::NoMemory
    }
}

impl<T: Drop> From<AllocFailed<T>> for CmdFault {
    ghost use Rattle.std.specs.Prelude.{◌≡◌};
    ghost use Rattle.wm_command.specs.declared.fault.CmdFault.TheVariants.{NoMemory};

    ghost from_gives = { λ _ e. e ≡ NoMemory };

    fn from(_e: AllocFailed<T>) -> CmdFault {
        CmdFault::NoMemory
    }
}
