// What ENDJOB makes of a job.
use wm_law::Wish;

/// What ENDJOB makes of a job that it doesn't refuse.
#[derive(Clone, Copy)]
pub enum Ending {
    /// The job waits, and ends on its queue.
    OnQueue,
    /// The job is active, and is to end by this wish.
    Wished(Wish),
}
