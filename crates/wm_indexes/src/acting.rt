// What of a wish acts.
use wm_base::Moment;

/// What of an active job's wish acts: the moment from which on the job is to end, where it is yet to come, and the monitor
/// that is to be handed its kill.
#[derive(Clone, Copy)]
pub struct Acting {
    pub until: Option<Moment>,
    pub kill: Option<u32>,
}
