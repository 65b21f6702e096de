// What a call of the outside answers where it fails.
use std::alloc::{AllocError, AllocFailed};
use thiserror::Error;

/// A call of the outside that failed, which its object has counted.
#[derive(Clone, Copy, Debug, Error)]
#[error("a call of the outside failed")]
pub struct Failed;

/// Why a child wasn't started: the spawner failed, which it has counted, or memory was wanting.
#[derive(Clone, Copy, Debug, Error)]
pub enum StartFault {
    #[error("the child could not be started")]
    Failed,
    #[error("out of memory")]
    NoMemory,
}

/// Why rows weren't kept or loaded: the keeper or the store failed, which it has counted, or memory was wanting.
#[derive(Clone, Copy, Debug, Error)]
pub enum KeepFault {
    #[error("the rows could not be kept")]
    Failed,
    #[error("out of memory")]
    NoMemory,
}

impl From<AllocError> for KeepFault {
    ghost use Rattle.std.specs.Prelude.{◌≡◌};
    ghost use Rattle.wm_traits.specs.declared.fault.KeepFault.TheVariants.{NoMemory};

    ghost from_gives = { λ _ fault. fault ≡ NoMemory };

    fn from(_: AllocError) -> Self {
        KeepFault::NoMemory
    }
}

impl<T: Drop> From<AllocFailed<T>> for KeepFault {
    ghost use Rattle.std.specs.Prelude.{◌≡◌};
    ghost use Rattle.wm_traits.specs.declared.fault.KeepFault.TheVariants.{NoMemory};

    ghost from_gives = { λ _ fault. fault ≡ NoMemory };

    fn from(_: AllocFailed<T>) -> Self {
        KeepFault::NoMemory
    }
}
