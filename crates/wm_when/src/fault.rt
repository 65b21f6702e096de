// Why there is no moment for the words of a schedule.
use thiserror::Error;

/// Why the words of a schedule name no moment from which on a job may start.
#[derive(Clone, Copy, Debug, Error)]
pub enum DueFault {
    #[error("the moment is past")]
    Past,
    #[error("the moment is out of range")]
    OutOfRange,
}
