// References: the names of objects, alone or behind their library.
ghost use Rattle.std.specs.Prelude.{◌≡◌, ◌++◌, ℕ, List, Option, Some, None, IfSome, position, codes};
ghost use Rattle.wm_base.specs.declared.qname.QName.{QName};
ghost use Rattle.wm_clwords.specs.Call.{IsObject, IsOne, IsProgram, item_tokens, program_library};
ghost use Rattle.wm_clwords.specs.CallReading.{is_slash, joined, library_of, object_by, program_by, reference_of, text_reference};

use crate::tree::Item;
use wm_base::{Name, QName, name_of};

/// A reference as it is written: with its library, or a name alone.
#[derive(Clone, Copy)]
struct Reference {
    library: Option<Name>,
    name: Name,
}

fn slash_at(text: &[u8]) -> Option<usize>
    ensures { result ≡ position is_slash text.now }
{
    text.iter().position(|byte| *byte == b'/')
}

/// The library before a slash. In apostrophes *LIBL is none.
fn library_of(is_word: bool, text: &[u8]) -> Option<Name>
    ensures { result ≡ library_of is_word text.now }
{
    if is_word && text == b"*LIBL".as_slice() {
        Some(Name::of(b"QGPL"))
    } else {
        name_of(text)
    }
}

fn joined(library: Option<Name>, name: Option<Name>) -> Option<Reference>
    ensures { result ≡ joined library name }
{
    Some(Reference {
        library: Some(library?),
        name: name?,
    })
}

fn text_reference(is_word: bool, text: &[u8]) -> Option<Reference>
    ensures { result ≡ text_reference is_word text.now }
{
    match slash_at(text) {
        None => {
            let name = name_of(text)?;
            Some(Reference {
                library: None,
                name,
            })
        }
        Some(at) => joined(library_of(is_word, &text[..at]), name_of(&text[at + 1..])),
    }
}

fn reference_of(item: &Item) -> Option<Reference>
    ensures { result ≡ reference_of item.now }
{
    match item {
        Item::Word(_, text) => text_reference(true, text.as_bytes()),
        Item::Quoted(_, text) => text_reference(false, text.as_bytes()),
        Item::List(..) => None,
        Item::Keyed(..) => None,
    }
}

/// The library of a program's name that stands alone.
fn program_library(name: &Name) -> Name
    ensures { result ≡ program_library name.now }
{
    if name.as_bytes() == b"QCMD".as_slice() {
        Name::of(b"QSYS")
    } else {
        Name::of(b"QGPL")
    }
}

/// Reads the reference of an object. A name alone is in QGPL, and so is one behind *LIBL, which is no text in
/// apostrophes. None for an item that is no reference.
pub fn read_object(item: &Item) -> Option<QName>
    ensures some { IfSome result (λ q. IsOne (λ token. IsObject token q) (item_tokens item.now)) }
    ensures all { (q : QName) → IsOne (λ token. IsObject token q) (item_tokens item.now) → result ≡ Some q }
    ensures value { result ≡ object_by (reference_of item.now) }
{
    object_of(item)
}

fn object_of(item: &Item) -> Option<QName>
    ensures { result ≡ object_by (reference_of item.now) }
{
    let reference = reference_of(item)?;
    let lib = match reference.library {
        Some(library) => library,
        None => Name::of(b"QGPL"),
    };
    Some(QName {
        lib,
        name: reference.name,
    })
}

/// Reads the reference of a program: as `read_object`, but QCMD alone is in QSYS.
pub fn read_program(item: &Item) -> Option<QName>
    ensures some { IfSome result (λ q. IsOne (λ token. IsProgram token q) (item_tokens item.now)) }
    ensures all { (q : QName) → IsOne (λ token. IsProgram token q) (item_tokens item.now) → result ≡ Some q }
    ensures value { result ≡ program_by (reference_of item.now) }
{
    program_of(item)
}

fn program_of(item: &Item) -> Option<QName>
    ensures { result ≡ program_by (reference_of item.now) }
{
    let reference = reference_of(item)?;
    let lib = match reference.library {
        Some(library) => library,
        None => program_library(&reference.name),
    };
    Some(QName {
        lib,
        name: reference.name,
    })
}
