// What answers a line: the text of its reply or of its fault, with the line's end.
ghost use Rattle.std.specs.Prelude.{◌≡◌, IfOk, string_bytes};
ghost use Rattle.wm_run.specs.Answer.{fault_answer, is_fault, is_power_down, is_refused, with_end};

use std::alloc::Global;
use wm_base::NoMemory;
use wm_clwords::ClFault;
use wm_law::Reply;
use wm_listing::{LineFault, fault_line};

/// Whether a reply refuses.
pub fn is_refused(reply: &Reply) -> bool
    ensures { result ≡ is_refused reply.now }
{
    matches!(reply, Reply::No(_))
}

/// Whether a reply says that the power goes down.
pub fn is_power_down(reply: &Reply) -> bool
    ensures { result ≡ is_power_down reply.now }
{
    matches!(reply, Reply::PowerDown)
}

/// Whether a line that is no command is a fault: an empty one isn't.
pub fn is_fault(fault: &LineFault) -> bool
    ensures { result ≡ is_fault fault.now }
{
    !matches!(fault, LineFault::Cl(ClFault::Empty))
}

/// A text with a line's end. An `Err` is want of memory.
pub fn with_end(mut text: String) -> Result<String, NoMemory>
    ensures { IfOk result (λ line. string_bytes line ≡ with_end (string_bytes text)) }
{
    text.push_str("\n")?;
    Ok(text)
}

/// What is written for a line that is no command: nothing for an empty one. An `Err` is want of memory.
pub fn fault_answer(alloc: Global, fault: &LineFault) -> Result<String, NoMemory>
    ensures { IfOk result (λ line. string_bytes line ≡ fault_answer fault.now) }
{
    if !is_fault(fault) {
        return Ok(String::new(alloc));
    }
    let line = with_end(fault_line(alloc, fault)?)?;
    Ok(line)
}
