// Why bytes spell no command.

use std::alloc::{AllocError, AllocFailed};
use thiserror::Error;

/// Why bytes are read as no command. Places are counted from 0.
#[derive(Clone, Copy, Debug, Error)]
pub enum ClFault {
    #[error("no command")]
    Empty,
    #[error("the first item is no name")]
    BadName,
    #[error("a text in apostrophes at {0} is open")]
    OpenQuote(u32),
    #[error("a parenthesis at {0} is open")]
    OpenParen(u32),
    #[error("a parenthesis at {0} closes nothing")]
    StrayParen(u32),
    #[error("a comment at {0} is open")]
    OpenComment(u32),
    #[error("more than 8,192 bytes")]
    TooLong,
    #[error("a byte at {0} may not stand there")]
    BadByte(u32),
    #[error("a parenthesis at {0} is one too many")]
    TooDeep(u32),
    #[error("out of memory")]
    NoMemory,
}

impl From<AllocError> for ClFault {
    ghost use Rattle.std.specs.Prelude.{◌≡◌};
    ghost use Rattle.wm_clwords.specs.declared.fault.ClFault.TheVariants.{NoMemory};

    ghost from_gives = { λ _ e. e ≡ NoMemory };

    fn from(_e: AllocError) -> ClFault {
        ClFault::NoMemory
    }
}

impl<T: Drop> From<AllocFailed<T>> for ClFault {
    ghost use Rattle.std.specs.Prelude.{◌≡◌};
    ghost use Rattle.wm_clwords.specs.declared.fault.ClFault.TheVariants.{NoMemory};

    ghost from_gives = { λ _ e. e ≡ NoMemory };

    fn from(_e: AllocFailed<T>) -> ClFault {
        ClFault::NoMemory
    }
}
