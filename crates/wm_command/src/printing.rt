// The canonical texts of commands.
ghost use Rattle.std.specs.Prelude.{◌≡◌, ◌++◌, OnOk, IfOk};
ghost use Rattle.std.specs.List.{flat_map};
ghost use Rattle.wm_command.specs.Print.{value_text, given_text, command_text};

use crate::commands::{command_word, values_of};
use crate::value::{Given, Value};
use crate::{
    ending_word, flag_word, push_cmp, push_date, push_job, push_name, push_number, push_time,
    push_word,
};
use std::alloc::Global;
use wm_base::{NoMemory, Text};
use wm_clwords::{push_qname, push_quoted};
use wm_law::Command;

#[tactic(auto, using(crate::proofs::Texts::texts), unfolding(crate::specs::Print::value_text))]
fn push_value(alloc: Global, out: &mut Text, value: &Value) -> Result<(), NoMemory>
    ensures { OnOk result (out.new ≡ out.old ++ value_text value.now) }
{
    match value {
        Value::Nothing => {}
        Value::Special(special) => push_word(out, special.word())?,
        Value::Object(q) => push_qname(out, q)?,
        Value::Name(name) => push_name(out, name)?,
        Value::Text(text) => push_quoted(out, text)?,
        Value::Number(n) => push_number(alloc, out, *n)?,
        Value::Flag(flag) => push_word(out, flag_word(*flag))?,
        Value::Ending(ending) => push_word(out, ending_word(*ending))?,
        Value::Job(job) => push_job(alloc, out, job)?,
        Value::Compare(cmp) => push_cmp(alloc, out, cmp)?,
        Value::Date(date) => push_date(alloc, out, *date)?,
        Value::Time(time) => push_time(alloc, out, time)?,
    }
    Ok(())
}

#[tactic(auto, using(crate::proofs::Texts::texts))]
fn push_given(alloc: Global, out: &mut Text, given: &Given) -> Result<(), NoMemory>
    ensures { OnOk result (out.new ≡ out.old ++ given_text given.now) }
{
    out.push_bytes(b" ")?;
    push_word(out, given.key.word())?;
    out.push_bytes(b"(")?;
    push_value(alloc, out, &given.value)?;
    out.push_bytes(b")")?;
    Ok(())
}

fn push_all(alloc: Global, out: &mut Text, all: &[Given]) -> Result<(), NoMemory>
    ensures { OnOk result (out.new ≡ out.old ++ flat_map given_text all.now) }
{
    for given in all {
        push_given(alloc, out, given)?;
    }
    Ok(())
}

/// The canonical text of a command: its name, and every key of the table in order with its value. CMD isn't printed,
/// its text stands in RQSDTA. An `Err` is want of memory.
#[tactic(auto, using(crate::proofs::Texts::texts))]
pub fn print(alloc: Global, command: &Command) -> Result<Text, NoMemory>
    ensures { IfOk result (λ text. text ≡ command_text command.now) }
{
    let values = values_of(alloc, command)?;
    let mut text = Text::new(alloc);
    push_word(&mut text, command_word(command))?;
    push_all(alloc, &mut text, &values)?;
    Ok(text)
}
