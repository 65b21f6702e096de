// The statuses of what doesn't open, a run or a server.
ghost use Rattle.std.specs.Prelude.{◌≡◌};
ghost use Rattle.wm_run.specs.Kept.{open_status, store_status};

use crate::words::NO_MEMORY;
use wm_floor::OpenFault;
use wm_traits::KeepFault;

/// The status where the store gave no keeper.
pub fn store_status(fault: KeepFault) -> u8
    ensures { result ≡ store_status fault }
{
    match fault {
        KeepFault::Failed => 5,
        KeepFault::NoMemory => NO_MEMORY,
    }
}

/// The status where the machine didn't open with the rows.
pub fn open_status(fault: &OpenFault) -> u8
    ensures { result ≡ open_status fault.now }
{
    match fault {
        OpenFault::KeeperFault => 5,
        OpenFault::BadRow(_) => 9,
        OpenFault::NoMemory => NO_MEMORY,
    }
}
