//! Lines and CL texts: what the bytes of the input spell.
//!
//! The contract for the layer above: `read_command` reads what the bytes spell, and answers the one fault of a text
//! that spells no command; `Joiner` gives the logical lines of the input, however it is cut; `read_call` reads exactly
//! the CALL commands, `read_call_items` the items of a CALL that stand in a list, and `read_object` and `read_program`
//! the names of objects; `call_text` is the one canonical text of a CALL, and it is read again as that CALL, with
//! `push_qname` and `push_quoted` for its parts.
//!
//! A command is read byte by byte. Format: a mode, where the word, text or comment began, its bytes so far, and the open lists
//! with their items. What always holds: these are what `run` of `Reading` has after the same bytes, and those steps are the
//! grammar, which knows no modes. Algorithm: one function a mode says where a byte leads (`reader.rt`); a byte that has no place
//! in its mode is the fault, and nothing is read after it.
//!
//! The definitions are in `specs/`: `Lines` (logical lines), `Grammar` (what bytes spell), `Faults` (where they stop to),
//! `Items` (what a tree says), `Call` (which items are a CALL), `CallText`, `Printed`. `Reading`, `Part` and
//! `CallReading` are second definitions, by steps.
//!
//! What bytes call is the function `called` of `Called`: the program and the values of the CALL that they are, and None
//! where they are no CALL. `read_call` computes it, and by `call_has_one_meaning` it is the CALL that the bytes spell.
//! Who keeps a text and asks later what it calls names this function; `Request` is such a text, which was read once.
#![tactic(auto)]

mod call;
mod called;
mod command;
mod fault;
mod joiner;
mod levels;
mod line;
mod mode;
mod reader;
mod reference;
mod request;
mod tree;

pub use call::{call_text, push_qname, push_quoted};
pub use called::{
    CallFault, CallText, call_has_one_meaning, printed_call_is_read, read_call, read_call_items,
};
pub use command::{one_verdict, read_command};
pub use fault::ClFault;
pub use joiner::{Joiner, LINE_LEN, no_line_waits};
pub use line::LogicalLine;
pub use reference::{read_object, read_program};
pub use request::Request;
pub use tree::{Item, Span, Tree};
