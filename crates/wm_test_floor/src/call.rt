// Calls of users by their CL texts, and calls of monitors once more.
ghost use Rattle.std.specs.Prelude.{IfOk, IfSome};
ghost use Rattle.wm_command.specs.Printed.{FitsMachine};
ghost use Rattle.wm_law.specs.Fit.{IsCall, IsCommand};
ghost use Rattle.wm_law.specs.declared.state.State.{State};

use anyhow::{Result, bail};
use std::alloc::Global;
use wm_base::{Exit, Name, Serial};
use wm_clwords::read_command;
use wm_command::{Line, command};
use wm_law::{Boxed, Call, Command};

fn line_of(alloc: Global, user: &Name, text: &str) -> Result<Line>
    ensures { IfOk result FitsMachine }
{
    let tree = read_command(alloc, text.as_bytes())?;
    let line = command(alloc, user, &tree)?;
    Ok(line)
}

fn user_call(alloc: Global, user: &Name, command: Command) -> Result<Call>
    requires { IsCommand command }
    ensures fit { IfOk result IsCall }
{
    let _user = user.as_bytes();
    Ok(Call::Change {
        user: *user,
        command: Boxed::new(alloc, command)?,
    })
}

fn line_call(alloc: Global, user: &Name, line: Line) -> Result<Call>
    requires { FitsMachine line }
    ensures fit { IfOk result IsCall }
{
    match line {
        Line::Change(command) => {
            let call = user_call(alloc, user, command)?;
            Ok(call)
        }
        Line::Read(_) => bail!("a command that reads"),
    }
}

/// The call of a user's CL text.
pub fn call_of(alloc: Global, user: &Name, text: &str) -> Result<Call>
    ensures fit { IfOk result IsCall }
{
    let line = line_of(alloc, user, text)?;
    let call = line_call(alloc, user, line)?;
    Ok(call)
}

/// The call of a monitor once more, where it is one that these tests have.
pub fn again(call: &Call) -> Option<Call>
    ensures fit { IfSome result IsCall }
{
    match call {
        Call::Hand => Some(Call::Hand),
        Call::Started(serial) => Some(Call::Started(Serial::new(serial.get()))),
        Call::Finished(serial, Exit::Killed) => {
            Some(Call::Finished(Serial::new(serial.get()), Exit::Killed))
        }
        Call::Finished(serial, Exit::Code(code)) => {
            Some(Call::Finished(Serial::new(serial.get()), Exit::Code(*code)))
        }
        Call::Tick => Some(Call::Tick),
        _ => None,
    }
}
