// Why a machine doesn't open.
use std::alloc::AllocError;
use thiserror::Error;
use wm_restart::RestartFault;
use wm_traits::KeepFault;

/// Why a machine doesn't open with what a keeper has.
#[derive(Debug, Drop, Error)]
pub enum OpenFault {
    /// A call of the keeper failed, which it has counted: it didn't give its rows, or didn't take those of the new run.
    #[error("the rows could not be loaded or kept")]
    KeeperFault,
    /// The number of the first row that isn't good, counted from 0; the number of rows, where all are good but a counter lacks.
    #[error("row {0} isn't good")]
    BadRow(usize),
    /// Memory is wanting, or there are more jobs than a machine takes.
    #[error("out of memory")]
    NoMemory,
}

impl From<AllocError> for OpenFault {
    ghost use Rattle.std.specs.Prelude.{◌≡◌};
    ghost use Rattle.wm_floor.specs.declared.open_fault.OpenFault.TheVariants.{NoMemory};

    ghost from_gives = { λ _ fault. fault ≡ NoMemory };

    fn from(_: AllocError) -> OpenFault {
        OpenFault::NoMemory
    }
}

impl From<KeepFault> for OpenFault {
    ghost use Rattle.std.specs.Prelude.{◌≡◌};
    ghost use Rattle.wm_floor.specs.OpenFaults.{of_keep};

    ghost from_gives = { λ fault open_fault. open_fault ≡ of_keep fault };

    fn from(fault: KeepFault) -> OpenFault {
        match fault {
            KeepFault::Failed => OpenFault::KeeperFault,
            KeepFault::NoMemory => OpenFault::NoMemory,
        }
    }
}

impl From<RestartFault> for OpenFault {
    ghost use Rattle.std.specs.Prelude.{◌≡◌};
    ghost use Rattle.wm_floor.specs.OpenFaults.{of_restart};

    ghost from_gives = { λ fault open_fault. open_fault ≡ of_restart fault };

    fn from(fault: RestartFault) -> OpenFault {
        match fault {
            RestartFault::BadRow(at) => OpenFault::BadRow(at),
            RestartFault::NoMemory => OpenFault::NoMemory,
        }
    }
}
