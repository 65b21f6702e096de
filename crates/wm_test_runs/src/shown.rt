// What a run did, as an answer shows it.
use std::alloc::AllocError;
use wm_base::{Asked, StartOrder};
use wm_command::command_word;
use wm_law::{Call, Entry, Reply};

// A call by its word, and what it tells.
fn push_call(answer: &mut String, call: &Call) -> Result<(), AllocError> {
    match call {
        Call::Change { user, command } => {
            write!(answer, "{user} {}", command_word(command.get()))
        }
        Call::Hand => answer.push_str("HAND"),
        Call::Started(serial) => write!(answer, "STARTED {serial}"),
        Call::StartFailed(serial, cause) => write!(answer, "STARTFAILED {serial} {cause}"),
        Call::Finished(serial, exit) => write!(answer, "FINISHED {serial} {exit}"),
        Call::UseDone(serial) => write!(answer, "USEDONE {serial}"),
        Call::Tick => answer.push_str("TICK"),
    }
}

fn push_order(answer: &mut String, asked: &Asked) -> Result<(), AllocError> {
    match asked {
        Asked::Start(order) => write!(answer, "ORDER START {}", order.serial),
        Asked::Kill(serial) => write!(answer, "ORDER KILL {serial}"),
    }
}

fn push_reply(answer: &mut String, reply: &Reply) -> Result<(), AllocError> {
    match reply {
        Reply::Order(asked) => push_order(answer, asked.get()),
        Reply::Nothing => answer.push_str("NOTHING"),
        Reply::Noted => answer.push_str("NOTED"),
        Reply::No(refusal) => write!(answer, "NO {refusal}"),
        _ => answer.push_str("OK"),
    }
}

/// An entry by its moment, its caller, its call and its reply.
pub fn push_entry(answer: &mut String, entry: &Entry) -> Result<(), AllocError> {
    write!(answer, "{} {} ", entry.moment, entry.caller)?;
    push_call(answer, &entry.call)?;
    answer.push_str(" -> ")?;
    push_reply(answer, &entry.reply)?;
    answer.push('\n')
}

fn push_start(answer: &mut String, order: &StartOrder) -> Result<(), AllocError> {
    write!(answer, "{} {}", order.job, order.path)?;
    for argument in order.args.as_slice() {
        write!(answer, " '{argument}'")?;
    }
    answer.push('\n')
}

/// What was asked of a spawner: a job with its program and the arguments, or a kill.
pub fn push_asked(answer: &mut String, asked: &Asked) -> Result<(), AllocError> {
    match asked {
        Asked::Kill(serial) => writeln!(answer, "KILL {serial}"),
        Asked::Start(order) => push_start(answer, order),
    }
}
