// Commands from trees.
ghost use Rattle.std.specs.Prelude.{◌≡◌, ◌≢◌, IfOk, IfErr, Ok, Err};
ghost use Rattle.wm_command.specs.Printed.{FitsMachine, KeepsForms, LineHasTexts, LineIsReadBack};
ghost use Rattle.wm_command.specs.Line.{change_named, read_named, lacks, own_fault, change_line, read_line, line_of};

use crate::commands::change_made;
use crate::fault::CmdFault;
use crate::line::Line;
use crate::printable::texts_are_printable;
use crate::reading::all_given;
use crate::table::{CHANGES, READS, change_rows, change_word, read_rows, read_word};
use crate::value::Values;
use crate::verb::{ChangeVerb, ReadVerb};
use std::alloc::Global;
use wm_base::{Key, Name};
use wm_clwords::{Item, Tree};
use wm_law::Ask;

#[tactic(auto, unfolding(crate::specs::Line::change_named))]
fn change_named(name: &Name) -> Option<ChangeVerb>
    ensures { result ≡ change_named name.now }
{
    CHANGES
        .iter()
        .copied()
        .find(|verb| change_word(*verb).as_bytes() == name.as_bytes())
}

#[tactic(auto, unfolding(crate::specs::Line::read_named))]
fn read_named(name: &Name) -> Option<ReadVerb>
    ensures { result ≡ read_named name.now }
{
    READS
        .iter()
        .copied()
        .find(|verb| read_word(*verb).as_bytes() == name.as_bytes())
}

// SBMJOB has a request, and not two.
fn own_fault(verb: ChangeVerb, values: &Values) -> Option<CmdFault>
    ensures { result ≡ own_fault verb values.now }
{
    let ChangeVerb::Sbmjob = verb else {
        return None;
    };
    match (values.lacks(Key::Cmd), values.lacks(Key::Rqsdta)) {
        (true, true) => Some(CmdFault::Missing(Key::Cmd)),
        (false, false) => Some(CmdFault::Conflict(Key::Cmd, Key::Rqsdta)),
        _ => None,
    }
}

fn change_line(alloc: Global, verb: ChangeVerb, items: &[Item]) -> Result<Line, CmdFault>
    ensures ok { IfOk result (λ line. change_line verb items.now ≡ Ok line) }
    ensures err { IfErr result (λ e. e ≢ CmdFault.NoMemory → change_line verb items.now ≡ Err e) }
    ensures texts { IfOk result (λ line. LineHasTexts line) }
{
    let values = all_given(alloc, change_rows(verb), items)?;
    if let Some(fault) = own_fault(verb, &values) {
        return Err(fault);
    }
    let command = change_made(verb, &values)?;
    texts_are_printable(&command);
    Ok(Line::Change(command))
}

fn read_line(alloc: Global, user: &Name, verb: ReadVerb, items: &[Item]) -> Result<Line, CmdFault>
    ensures ok { IfOk result (λ line. read_line user.now verb items.now ≡ Ok line) }
    ensures err { IfErr result (λ e. e ≢ CmdFault.NoMemory → read_line user.now verb items.now ≡ Err e) }
    ensures texts { IfOk result (λ line. LineHasTexts line) }
{
    let values = all_given(alloc, read_rows(verb), items)?;
    let ask = match verb {
        ReadVerb::Wrkactjob => Ask::Active,
        ReadVerb::Wrksbmjob => Ask::Submitted(*user),
        ReadVerb::Wrksbs => Ask::Subsystems,
        ReadVerb::Dsplog => Ask::Log,
        ReadVerb::Wrkjobq => Ask::Queue(values.object(Key::Jobq)),
        ReadVerb::Dspjob => Ask::Job(values.job(Key::Job)),
    };
    Ok(Line::Read(ask))
}

/// The line that a tree is. The user is the one whom WRKSBMJOB is about.
pub fn command(alloc: Global, user: &Name, tree: &Tree) -> Result<Line, CmdFault>
    // A line is that of the table, and a fault the first one in its order.
    ensures ok { IfOk result (λ line. line_of user.now tree.now.name tree.now.items.items ≡ Ok line) }
    ensures err { IfErr result (λ e. e ≢ CmdFault.NoMemory → line_of user.now tree.now.name tree.now.items.items ≡ Err e) }

    // A command keeps the forms and the ranges of the table, so what is printed of it is read as that command.
    ensures forms { IfOk result (λ line. KeepsForms line) }
    ensures machine { IfOk result (λ line. FitsMachine line) }
    ensures back { IfOk result (λ line. LineIsReadBack line) }
{
    if let Some(verb) = change_named(&tree.name) {
        let line = change_line(alloc, verb, &tree.items)?;
        return Ok(line);
    }
    match read_named(&tree.name) {
        None => Err(CmdFault::UnknownCommand),
        Some(verb) => {
            let line = read_line(alloc, user, verb, &tree.items)?;
            Ok(line)
        }
    }
}
