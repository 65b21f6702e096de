// What SQLite's errors are for a keeper, and how they are counted.
ghost use Rattle.std.specs.Prelude.{◌≡◌, false, IsTrue};
ghost use Rattle.wm_traits.specs.Cause.{HasKeepCause, keep_missed, raised};
ghost use Rattle.wm_sqlkeep.specs.Errors.{keep_fault};

use sqlite::{Error, ErrorCode};
use wm_traits::KeepFault;

/// Want of memory, or else a fault.
pub(crate) fn keep_fault(error: Error) -> KeepFault
    ensures { result ≡ keep_fault error }
{
    match error {
        Error::SqliteFailure(ErrorCode::OutOfMemory) => KeepFault::NoMemory,
        _ => KeepFault::Failed,
    }
}

/// Counts a fault, but not want of memory.
pub(crate) fn counted<T>(faults: &mut u64, answered: Result<T, KeepFault>) -> Result<T, KeepFault>
    ensures same { result ≡ answered }
    ensures cause { HasKeepCause faults.old faults.new result }
    ensures missed { IsTrue (keep_missed answered) → faults.new ≡ raised faults.old }
    ensures not_missed { keep_missed answered ≡ false → faults.new ≡ faults.old }
{
    if let Err(KeepFault::Failed) = &answered {
        *faults = faults.saturating_add(1);
    }
    answered
}
