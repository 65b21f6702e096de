// Why a line is no command.
use wm_clwords::ClFault;
use wm_command::CmdFault;

/// Why a line is no command.
#[derive(Clone, Copy)]
pub enum LineFault {
    /// The text spells no command.
    Cl(ClFault),
    /// The command table has no such line.
    Cm(CmdFault),
}
