// What a launch comes to.
use crate::Phase;
use wm_base::How;

/// What a launch makes of a job.
#[derive(Clone, Copy)]
pub struct Launched {
    pub phase: Phase,
    pub how: How,
}
