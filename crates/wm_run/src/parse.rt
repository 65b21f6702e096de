// Parsing a logical line.
ghost use Rattle.std.specs.Prelude.{◌≡◌, ℕ, List, Ok, IfOk};
ghost use Rattle.wm_clwords.specs.Faults.{IsCommand};
ghost use Rattle.wm_clwords.specs.Items.{list_marks};
ghost use Rattle.wm_run.specs.Parsed.{IsTabled, Parses, IsFitLine, IsFitParsed};

use crate::parsed::Parsed;
use std::alloc::{AllocError, Global};
use wm_base::{Name, NoMemory};
use wm_clwords::{ClFault, Tree, read_command};
use wm_command::{CmdFault, Line, command};
use wm_listing::LineFault;

// What a line of the command table comes to.
fn parsed_of(line: Line) -> Parsed
    requires { IsFitLine line }
    ensures parses { (user text : List ℕ) → IsTabled user text (Ok line) → Parses user text result }
    ensures fit { IsFitParsed result }
{
    match line {
        Line::Read(ask) => Parsed::Read(ask),
        Line::Change(command) => Parsed::Call(command),
    }
}

// What a tree comes to for a user.
fn parse_tree(alloc: Global, user: &Name, tree: &Tree) -> Result<Parsed, NoMemory>
    ensures parses { IfOk result (λ r. (text : List ℕ) → IsCommand text tree.now.name (list_marks tree.now.items.items) → Parses user.now text r) }
    ensures fit { IfOk result IsFitParsed }
{
    match command(alloc, user, tree) {
        Ok(line) => Ok(parsed_of(line)),
        Err(CmdFault::NoMemory) => Err(AllocError),
        Err(fault) => Ok(Parsed::Fault(LineFault::Cm(fault))),
    }
}

/// Parses a logical line of a user. An `Err` is want of memory.
pub fn parse_line(alloc: Global, user: &Name, text: &[u8]) -> Result<Parsed, NoMemory>
    ensures parses { IfOk result (λ r. Parses user.now text.now r) }
    ensures fit { IfOk result IsFitParsed }
{
    match read_command(alloc, text) {
        Ok(tree) => {
            let parsed = parse_tree(alloc, user, &tree)?;
            Ok(parsed)
        }
        Err(ClFault::NoMemory) => Err(AllocError),
        Err(fault) => Ok(Parsed::Fault(LineFault::Cl(fault))),
    }
}
