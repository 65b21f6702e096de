// What a run goes by.
use wm_base::{Name, QName};
use wm_when::Offset;

/// What a run goes by.
#[derive(Clone, Copy)]
pub struct Settings {
    /// The controlling subsystem, which the run starts.
    pub ctl: QName,
    /// The user of the commands of its input.
    pub user: Name,
    /// How far its local time is ahead of UTC.
    pub offset: Offset,
    /// Below how many entries it takes commands.
    pub log_limit: u32,
}
