// Why a call isn't made.
use std::alloc::AllocError;
use thiserror::Error;

/// Why a call isn't made. The history, the state and the rows are as before then.
#[derive(Clone, Copy, Debug, Error)]
pub enum CallFault {
    /// The keeper didn't take the rows, which it has counted.
    #[error("the rows could not be kept")]
    KeeperFault,
    /// The history has so many entries that it takes no such call.
    #[error("the history has {0} entries")]
    LogFull(u32),
    /// Memory is wanting.
    #[error("out of memory")]
    NoMemory,
}

impl From<AllocError> for CallFault {
    ghost use Rattle.std.specs.Prelude.{◌≡◌};
    ghost use Rattle.wm_floor.specs.declared.call_fault.CallFault.TheVariants.{NoMemory};

    ghost from_gives = { λ _ fault. fault ≡ NoMemory };

    fn from(_: AllocError) -> CallFault {
        CallFault::NoMemory
    }
}
