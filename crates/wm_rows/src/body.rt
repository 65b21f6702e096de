// The commands that bodies are.
ghost use Rattle.std.specs.Prelude.{◌≡◌, IfOk, IfSome, Some};
ghost use Rattle.wm_clwords.specs.Faults.{IsCommand};
ghost use Rattle.wm_clwords.specs.Items.{list_marks};
ghost use Rattle.wm_command.specs.Print.{command_text};
ghost use Rattle.wm_command.specs.Printed.{IsFit};
ghost use Rattle.wm_law.specs.declared.command.Command.{Command};
ghost use Rattle.wm_rows.specs.Fitting.{IsFitCommand};

use std::alloc::{AllocError, Global};
use wm_base::{Name, NoMemory};
use wm_clwords::{ClFault, Tree, read_command};
use wm_command::{CmdFault, Line, command, printed_command_is_read};
use wm_law::Command;

// The command that a tree is.
fn tree_command(alloc: Global, tree: &Tree) -> Result<Option<Command>, NoMemory>
    ensures fit { IfOk result (λ o. IfSome o IsFitCommand) }
    ensures exactly { IfOk result (λ o. (c : Command) → IsFit c → IsCommand (command_text c) tree.now.name (list_marks tree.now.items.items) → o ≡ Some c) }
{
    // Which user asks makes no difference to a command that changes the state.
    let user = Name::of(b"QSYS");
    printed_command_is_read();
    match command(alloc, &user, tree) {
        Ok(Line::Change(command)) => Ok(Some(command)),
        Ok(Line::Read(_)) => Ok(None),
        Err(CmdFault::NoMemory) => Err(AllocError),
        Err(_) => Ok(None),
    }
}

/// The command that a body is, if it is one. Some bodies that aren't canonical are read too. An `Err` is want of memory.
pub fn read_body(alloc: Global, body: &[u8]) -> Result<Option<Command>, NoMemory>
    ensures fit { IfOk result (λ o. IfSome o IsFitCommand) }
    ensures exactly { IfOk result (λ o. (c : Command) → IsFit c → body.now ≡ command_text c → o ≡ Some c) }
{
    printed_command_is_read();
    match read_command(alloc, body) {
        Ok(tree) => {
            let command = tree_command(alloc, &tree)?;
            Ok(command)
        }
        Err(ClFault::NoMemory) => Err(AllocError),
        Err(_) => Ok(None),
    }
}
