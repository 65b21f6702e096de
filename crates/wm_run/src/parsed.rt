// What a logical line comes to.
use wm_law::{Ask, Command};
use wm_listing::LineFault;

/// What a logical line comes to.
#[derive(Drop)]
pub enum Parsed {
    Fault(LineFault),
    /// A reading command.
    Read(Ask),
    /// A call of the session's user.
    Call(Command),
}
