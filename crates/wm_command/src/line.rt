// What a line says.
use wm_law::{Ask, Command};

/// What a line says: a command that changes the state, or what a reading command asks.
#[derive(Debug, Drop)]
pub enum Line {
    Change(Command),
    Read(Ask),
}
