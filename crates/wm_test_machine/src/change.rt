// Commands by their CL texts.
ghost use Rattle.std.specs.Prelude.{IfOk};
ghost use Rattle.wm_command.specs.Printed.{FitsMachine};

use anyhow::Result;
use std::alloc::Global;
use wm_base::Name;
use wm_clwords::read_command;
use wm_command::{Line, command};

/// The line that a CL text is.
pub fn line_of(alloc: Global, user: &Name, text: &str) -> Result<Line>
    ensures { IfOk result FitsMachine }
{
    let tree = read_command(alloc, text.as_bytes())?;
    let line = command(alloc, user, &tree)?;
    Ok(line)
}
