// What starts a child.
ghost use Rattle.std.specs.Prelude.{◌≡◌, ℕ, List, None, false, IfOk};
ghost use Rattle.std.specs.Process.{command_program, command_args, command_var, command_dir, clears_env};

use std::alloc::Global;
use std::process::{Command, Stdio};
use wm_base::{NoMemory, StartOrder};

/// The program with its arguments as they are, in the environment and the folder of this process. Its input is empty, and
/// its output is dropped.
pub fn command_of(alloc: Global, order: &StartOrder) -> Result<Command, NoMemory>
    ensures program { IfOk result (λ command. command_program command ≡ order.now.path) }
    ensures args { IfOk result (λ command. command_args command ≡ order.now.args) }
    ensures environment { IfOk result (λ command. clears_env command ≡ false) }
    ensures variables { IfOk result (λ command. (name : List ℕ) → command_var command name ≡ None) }
    ensures folder { IfOk result (λ command. command_dir command ≡ None) }
{
    let mut command = Command::new(alloc, order.path.as_str())?;
    for arg in order.args.as_slice() {
        command.arg(arg.as_str())?;
    }
    command.stdin(Stdio::null());
    command.stdout(Stdio::null());
    command.stderr(Stdio::null());
    Ok(command)
}
