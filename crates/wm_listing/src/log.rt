// The listing of a history.
ghost use Rattle.std.specs.Prelude.{◌≡◌, ◌++◌, IfOk, OnOk, codes, string_bytes};
ghost use Rattle.std.specs.Fmt.{decimal};
ghost use Rattle.wm_base.specs.Exit.{exit_text};
ghost use Rattle.wm_base.specs.StartCause.{start_cause_word};
ghost use Rattle.wm_command.specs.Print.{command_text};
ghost use Rattle.wm_listing.specs.Log.{call_text, reply_text, column, entry_fields, entry_line, entry_lines, log_text};

use crate::columns::push_aligned;
use crate::replies::{mention_of, noted, said};
use crate::whole::push_end;
use std::alloc::Global;
use wm_base::{Exit, Name, NoMemory, Serial, StartCause};
use wm_command::print;
use wm_law::{Call, Command, Entry};

// A user, and the canonical text of a command.
fn command_line(alloc: Global, user: &Name, command: &Command) -> Result<String, NoMemory>
    ensures { IfOk result (λ text. string_bytes text ≡ user.now ++ codes " " ++ command_text command.now) }
{
    let mut text = user.to_string(alloc)?;
    text.push_str(" ")?;
    let command = print(alloc, command)?;
    text.push_str(command.as_str())?;
    Ok(text)
}

// That a start failed, and why.
fn start_failed(alloc: Global, serial: Serial, cause: StartCause) -> Result<String, NoMemory>
    ensures { IfOk result (λ text. string_bytes text ≡ codes "STARTFAILED " ++ decimal serial ++ codes " " ++ start_cause_word cause) }
{
    let mut text = format!(in alloc; "STARTFAILED {serial} ")?;
    let cause = cause.to_string(alloc)?;
    text.push_str(cause.as_str())?;
    Ok(text)
}

// That a job finished, and how.
fn finished(alloc: Global, serial: Serial, end: Exit) -> Result<String, NoMemory>
    ensures { IfOk result (λ text. string_bytes text ≡ codes "FINISHED " ++ decimal serial ++ codes " " ++ exit_text end) }
{
    let mut text = format!(in alloc; "FINISHED {serial} ")?;
    let end = end.to_string(alloc)?;
    text.push_str(end.as_str())?;
    Ok(text)
}

// What was called.
fn call_line(alloc: Global, call: &Call) -> Result<String, NoMemory>
    ensures { IfOk result (λ text. string_bytes text ≡ call_text call.now) }
{
    match call {
        Call::Change { user, command } => command_line(alloc, user, command.get()),
        Call::Hand => String::from_str(alloc, "HAND"),
        Call::Started(serial) => format!(in alloc; "STARTED {serial}"),
        Call::StartFailed(serial, cause) => start_failed(alloc, *serial, *cause),
        Call::Finished(serial, end) => finished(alloc, *serial, *end),
        Call::UseDone(serial) => format!(in alloc; "USEDONE {serial}"),
        Call::Tick => String::from_str(alloc, "TICK"),
    }
}

// What is said of the reply.
fn reply_line(alloc: Global, entry: &Entry) -> Result<String, NoMemory>
    ensures { IfOk result (λ text. string_bytes text ≡ reply_text entry.now.call entry.now.reply) }
{
    match &entry.call {
        Call::Change { command, .. } => said(alloc, &mention_of(command.get()), &entry.reply),
        _ => noted(alloc, &entry.reply),
    }
}

// A number in a column, and a blank.
fn push_column(alloc: Global, out: &mut Vec<u8>, width: usize, number: u64) -> Result<(), NoMemory>
    ensures { OnOk result (out.new.items ≡ out.old.items ++ column width number) }
{
    let number = number.to_string(alloc)?;
    push_aligned(out, width, number.as_bytes())?;
    out.extend_from_slice(b" ")?;
    Ok(())
}

// The place, the caller and the moment.
fn push_fields(
    alloc: Global,
    out: &mut Vec<u8>,
    place: usize,
    entry: &Entry,
) -> Result<(), NoMemory>
    ensures { OnOk result (out.new.items ≡ out.old.items ++ entry_fields place entry.now) }
{
    push_column(alloc, out, 7, place as u64)?;
    push_column(alloc, out, 3, u64::from(entry.caller))?;
    push_column(alloc, out, 12, entry.moment.get())?;
    Ok(())
}

/// The line of one entry, at its place, behind some bytes. An `Err` is want of memory; a part of the line may stand then.
pub fn push_entry(
    alloc: Global,
    out: &mut Vec<u8>,
    place: usize,
    entry: &Entry,
) -> Result<(), NoMemory>
    ensures { OnOk result (out.new.items ≡ out.old.items ++ entry_line place entry.now) }
{
    push_fields(alloc, out, place, entry)?;
    let call = call_line(alloc, &entry.call)?;
    out.extend_from_slice(call.as_bytes())?;
    out.extend_from_slice(b" -> ")?;
    let reply = reply_line(alloc, entry)?;
    out.extend_from_slice(reply.as_bytes())?;
    out.extend_from_slice(b"\n")?;
    Ok(())
}

fn push_entries(alloc: Global, out: &mut Vec<u8>, log: &[Entry]) -> Result<(), NoMemory>
    ensures { OnOk result (out.new.items ≡ out.old.items ++ entry_lines 1 log.now) }
{
    for at in 0..log.len() {
        push_entry(alloc, out, at + 1, &log[at])?;
    }
    Ok(())
}

/// The bytes of the listing of a history: its entries, whose places begin at 1. An `Err` is want of memory.
pub fn log_listing(alloc: Global, log: &[Entry]) -> Result<Vec<u8>, NoMemory>
    ensures { IfOk result (λ bytes. bytes.items ≡ log_text log.now) }
{
    let mut out = Vec::new(alloc);
    push_entries(alloc, &mut out, log)?;
    push_end(&mut out)?;
    Ok(out)
}
