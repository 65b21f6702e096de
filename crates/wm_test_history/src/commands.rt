// The calls of users, by CL texts.
ghost use Rattle.std.specs.Prelude.{IfOk};
ghost use Rattle.wm_command.specs.Printed.{FitsMachine};
ghost use Rattle.wm_law.specs.Fit.{IsCall, IsCommand};
ghost use Rattle.wm_law.specs.declared.state.State.{State};

use anyhow::{Result, bail};
use std::alloc::Global;
use wm_base::Name;
use wm_clwords::read_command;
use wm_command::{Line, command};
use wm_law::{Boxed, Call, Command};

/// The line that a CL text is.
pub fn line_of(alloc: Global, user: &Name, text: &str) -> Result<Line>
    ensures { IfOk result FitsMachine }
{
    let tree = read_command(alloc, text.as_bytes())?;
    let line = command(alloc, user, &tree)?;
    Ok(line)
}

/// The call of a user's command.
pub fn user_call(alloc: Global, user: &Name, command: Command) -> Result<Call>
    requires { IsCommand command }
    ensures fit { IfOk result IsCall }
{
    let _user = user.as_bytes();
    Ok(Call::Change {
        user: *user,
        command: Boxed::new(alloc, command)?,
    })
}

fn line_call(alloc: Global, user: &Name, line: Line) -> Result<Call>
    requires { FitsMachine line }
    ensures fit { IfOk result IsCall }
{
    match line {
        Line::Change(command) => {
            let call = user_call(alloc, user, command)?;
            Ok(call)
        }
        Line::Read(_) => bail!("a command that reads"),
    }
}

/// The call of a CL text.
pub fn text_call(alloc: Global, user: &Name, text: &str) -> Result<Call>
    ensures fit { IfOk result IsCall }
{
    let line = line_of(alloc, user, text)?;
    let call = line_call(alloc, user, line)?;
    Ok(call)
}
