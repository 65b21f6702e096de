// What a run has.
use wm_floor::{Floor, FloorPass, Monitor};
use wm_traits::Keeper;

/// The floor of a run, the session's pass of it, the monitor's, and the monitor.
pub struct Run<K: Keeper> {
    pub floor: Floor<K>,
    pub session: FloorPass<K>,
    pub watch: FloorPass<K>,
    pub monitor: Monitor,
}
