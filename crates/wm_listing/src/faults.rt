// The texts of faults.
ghost use Rattle.std.specs.Prelude.{◌≡◌, IfOk, string_bytes};
ghost use Rattle.wm_listing.specs.Said.{cl_text, cm_text, fault_text};

use crate::line_fault::LineFault;
use std::alloc::Global;
use wm_base::NoMemory;
use wm_clwords::ClFault;
use wm_command::CmdFault;

// The number and the word of a text's fault, and its place.
fn cl_line(alloc: Global, fault: &ClFault) -> Result<String, NoMemory>
    ensures { IfOk result (λ text. string_bytes text ≡ cl_text fault.now) }
{
    match fault {
        ClFault::Empty => String::from_str(alloc, "CL 1 EMPTY"),
        ClFault::BadName => String::from_str(alloc, "CL 2 BADNAME"),
        ClFault::OpenQuote(place) => format!(in alloc; "CL 3 OPENQUOTE {place}"),
        ClFault::OpenParen(place) => format!(in alloc; "CL 4 OPENPAREN {place}"),
        ClFault::StrayParen(place) => format!(in alloc; "CL 5 STRAYPAREN {place}"),
        ClFault::OpenComment(place) => format!(in alloc; "CL 6 OPENCOMMENT {place}"),
        ClFault::TooLong => String::from_str(alloc, "CL 7 TOOLONG"),
        ClFault::BadByte(place) => format!(in alloc; "CL 8 BADBYTE {place}"),
        ClFault::TooDeep(place) => format!(in alloc; "CL 9 TOODEEP {place}"),
        ClFault::NoMemory => Ok(String::new(alloc)),
    }
}

// Those of a command's fault, and its place or keys.
fn cm_line(alloc: Global, fault: &CmdFault) -> Result<String, NoMemory>
    ensures { IfOk result (λ text. string_bytes text ≡ cm_text fault.now) }
{
    match fault {
        CmdFault::UnknownCommand => String::from_str(alloc, "CM 1 UNKNOWNCOMMAND"),
        CmdFault::UnknownKeyword(place) => format!(in alloc; "CM 2 UNKNOWNKEYWORD {place}"),
        CmdFault::Twice(place) => format!(in alloc; "CM 3 TWICE {place}"),
        CmdFault::Missing(key) => format!(in alloc; "CM 4 MISSING {key}"),
        CmdFault::BadValue(place) => format!(in alloc; "CM 5 BADVALUE {place}"),
        CmdFault::TooManyValues(place) => format!(in alloc; "CM 6 TOOMANYVALUES {place}"),
        CmdFault::Conflict(first, second) => format!(in alloc; "CM 7 CONFLICT {first} {second}"),
        CmdFault::NotCall(place) => format!(in alloc; "CM 8 NOTCALL {place}"),
        CmdFault::NoMemory => Ok(String::new(alloc)),
    }
}

/// What is answered to a line that is no command, without the line's end. An `Err` is want of memory.
pub fn fault_line(alloc: Global, fault: &LineFault) -> Result<String, NoMemory>
    ensures { IfOk result (λ text. string_bytes text ≡ fault_text fault.now) }
{
    match fault {
        LineFault::Cl(fault) => cl_line(alloc, fault),
        LineFault::Cm(fault) => cm_line(alloc, fault),
    }
}
