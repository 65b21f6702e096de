// Reading a command.
ghost use Rattle.std.specs.Prelude.{◌≡◌, ◌≢◌, ◌⊎◌, ◌≤◌, List, ℕ, [], ◌∷◌, length, Ok, Err, IfOk, IfErr, MatchResult};
ghost use Rattle.wm_clwords.specs.declared.fault.ClFault.{ClFault};
ghost use Rattle.wm_clwords.specs.Faults.{IsCommand, Stands};
ghost use Rattle.wm_clwords.specs.Grammar.{Mark};
ghost use Rattle.wm_clwords.specs.Reading.{run, begun};
ghost use Rattle.wm_clwords.specs.Items.{list_marks};
ghost use Rattle.wm_clwords.specs.Verdict.{named, verdict};

use crate::fault::ClFault;
use crate::joiner::LINE_LEN;
use crate::reader::Reader;
use crate::tree::{Item, Tree};
use std::alloc::Global;
use wm_base::Name;

/// The items that bytes spell, or the first fault among them.
fn read_items(alloc: Global, bytes: &[u8]) -> Result<Vec<Item>, ClFault>
    requires { length bytes.now ≤ 8192 }
    ensures ok { IfOk result (λ items. run begun 0 bytes.now ≡ Ok (list_marks items.items)) }
    ensures err { IfErr result (λ e. e ≢ ClFault.NoMemory → run begun 0 bytes.now ≡ Err e) }
{
    let mut reader = Reader::new(alloc);
    for (index, byte) in bytes.iter().enumerate() {
        reader.step(alloc, index as u32, *byte)?;
    }
    reader.finish(alloc, bytes.len() as u32)
}

/// The first item is the command's name.
fn named(mut items: Vec<Item>) -> Result<Tree, ClFault>
    ensures ok { IfOk result (λ tree. named (list_marks items.items) ≡ Ok (tree.name, list_marks tree.items.items)) }
    ensures err { IfErr result (λ e. named (list_marks items.items) ≡ Err e) }
{
    if items.is_empty() {
        return Err(ClFault::Empty);
    }
    match items.remove(0) {
        Item::Word(_, text) => match Name::read(text.as_bytes()) {
            Ok(name) => Ok(Tree { name, items }),
            Err(_) => Err(ClFault::BadName),
        },
        _ => Err(ClFault::BadName),
    }
}

/// Reads the bytes of a command, by the second definition of what they spell.
fn read_tree(alloc: Global, bytes: &[u8]) -> Result<Tree, ClFault>
    ensures ok { IfOk result (λ tree. verdict bytes.now ≡ Ok (tree.name, list_marks tree.items.items)) }
    ensures err { IfErr result (λ e. e ≢ ClFault.NoMemory → verdict bytes.now ≡ Err e) }
{
    if bytes.len() > LINE_LEN {
        return Err(ClFault::TooLong);
    }
    let items = read_items(alloc, bytes)?;
    named(items)
}

/// Reads the bytes of a command. Lower case is read as upper case outside apostrophes.
pub fn read_command(alloc: Global, bytes: &[u8]) -> Result<Tree, ClFault>
    // What is read is what the bytes spell, and each fault stands in them.
    ensures ok { IfOk result (λ tree. IsCommand bytes.now tree.name (list_marks tree.items.items)) }
    ensures err { IfErr result (λ e. e ≢ ClFault.NoMemory → Stands e bytes.now) }

    // Each command is read as it, and each fault that stands is answered.
    ensures command { (name : List ℕ) (marks : List Mark) → IsCommand bytes.now name marks
        → MatchResult result (λ tree. (tree.name ≡ name) × (list_marks tree.items.items ≡ marks)) (λ e. e ≡ ClFault.NoMemory) }
    ensures fault { (fault : ClFault) → Stands fault bytes.now
        → MatchResult result (λ _. ⊥) (λ e. e ≢ ClFault.NoMemory → e ≡ fault) }
{
    read_tree(alloc, bytes)
}

/// A text is a command or has a fault, one of the two, and one alone of its kind.
pub fn one_verdict()
    ensures some { (bytes : List ℕ)
        → ((name : List ℕ) × ((marks : List Mark) × IsCommand bytes name marks)) ⊎ ((fault : ClFault) × Stands fault bytes) }
    ensures command { (bytes name other : List ℕ) (marks more : List Mark)
        → IsCommand bytes name marks → IsCommand bytes other more → (name ≡ other) × (marks ≡ more) }
    ensures fault { (bytes : List ℕ) (fault other : ClFault) → Stands fault bytes → Stands other bytes → fault ≡ other }
    ensures apart { (bytes name : List ℕ) (marks : List Mark) (fault : ClFault)
        → IsCommand bytes name marks → Stands fault bytes → ⊥ }
{}
