// What the values behind a key are read as.
ghost use Rattle.std.specs.Prelude.{◌≡◌, ◌≢◌, IfOk, IfErr, Ok, Err, Some, None, if◌then◌else◌};
ghost use Rattle.std.specs.Option.{option_copied};
ghost use Rattle.wm_command.specs.declared.value.Value.TheVariants as value;
ghost use Rattle.wm_command.specs.Table.{row_kind, row_special};
ghost use Rattle.wm_command.specs.Values.{kind_value, text_value, item_value, text_from, start_of, one_value, compared};

use crate::fault::CmdFault;
use crate::row::{Kind, Row, Special};
use crate::value::Value;
use crate::{
    date_of, ending_of, flag_of, is_bare, is_word, job_of, number_of, text_of, time_of, within,
};
use wm_base::{NoMemory, Text, name_of};
use wm_clwords::{Item, read_object, read_program};
use wm_desc::{Cmp, path_in_range};

fn text_if(is_in_range: bool, text: &Text) -> Result<Option<Value>, NoMemory>
    ensures { IfOk result (λ v. v ≡ (if is_in_range then Some (value.Text text.now) else None)) }
{
    if is_in_range {
        Ok(Some(Value::Text(text.clone()?)))
    } else {
        Ok(None)
    }
}

/// What a word, or a text in apostrophes, with these characters is as a value of that kind.
#[tactic(auto, unfolding(crate::specs::Values::kind_value))]
fn kind_value(kind: Kind, item: &Item, text: &Text) -> Result<Option<Value>, NoMemory>
    ensures { IfOk result (λ v. v ≡ kind_value kind item.now text.now) }
{
    let bytes = text.as_bytes();
    match kind {
        Kind::Object => Ok(read_object(item).map(Value::Object)),
        Kind::Program => Ok(read_program(item).map(Value::Object)),
        Kind::Name => Ok(name_of(bytes).map(Value::Name)),
        Kind::Text(low, high) => text_if(within(low as usize, high as usize, text.len()), text),
        Kind::Path => text_if(path_in_range(text), text),
        Kind::Number(low, high) => Ok(number_of(1, 9, low, high, bytes).map(Value::Number)),
        Kind::Flag => Ok(flag_of(is_bare(item), bytes).map(Value::Flag)),
        Kind::Ending => Ok(ending_of(is_bare(item), bytes).map(Value::Ending)),
        Kind::Job => Ok(job_of(bytes).map(Value::Job)),
        Kind::Date => Ok(date_of(is_bare(item), bytes).map(Value::Date)),
        Kind::Time => Ok(time_of(is_bare(item), bytes).map(Value::Time)),
        Kind::Compare | Kind::Call | Kind::Anything => Ok(None),
    }
}

impl Special {
    ghost use Rattle.std.specs.Prelude.{◌≡◌};
    ghost use Rattle.wm_command.specs.Values.{special_word};

    /// The word, or nothing where there is none.
    #[tactic(auto, unfolding(crate::specs::Values::special_word))]
    pub fn word(self) -> &'static str
        ensures { result.now ≡ special_word self }
    {
        match self {
            Special::Never => "",
            Special::Nomax => "*NOMAX",
            Special::None => "*NONE",
            Special::Jobd => "*JOBD",
            Special::Same => "*SAME",
            Special::Nolimit => "*NOLIMIT",
            Special::Sbsd => "*SBSD",
        }
    }
}

/// The row's special word, or a value of its kind.
fn item_value(kind: Kind, special: Special, item: &Item) -> Result<Option<Value>, NoMemory>
    ensures { IfOk result (λ v. v ≡ item_value kind special item.now) }
{
    if !matches!(special, Special::Never) && is_word(item, special.word().as_bytes()) {
        return Ok(Some(Value::Special(special)));
    }
    match text_of(item) {
        None => Ok(None),
        Some(text) => kind_value(kind, item, text),
    }
}

fn text_from(text: Option<&Text>, start: Option<u32>) -> Result<Option<Value>, NoMemory>
    ensures { IfOk result (λ v. v ≡ text_from (option_copied text.entry) start) }
{
    let (Some(text), Some(start)) = (text, start) else {
        return Ok(None);
    };
    let value = text.clone()?;
    let cmp = Cmp::Val { value, start };
    if cmp.is_in_range() {
        Ok(Some(Value::Compare(cmp)))
    } else {
        Ok(None)
    }
}

fn start_of(text: Option<&Text>) -> Option<u32>
    ensures { result ≡ start_of (option_copied text.entry) }
{
    number_of(1, 9, 1, 80, text?.as_bytes())
}

/// The one value of a key, whose item begins at `place`.
pub fn one_value(row: &Row, place: u32, items: &[Item]) -> Result<Value, CmdFault>
    ensures ok { IfOk result (λ v. one_value (row_kind row.now) (row_special row.now) place items.now ≡ Ok v) }
    ensures err { IfErr result (λ e. e ≢ CmdFault.NoMemory → one_value (row_kind row.now) (row_special row.now) place items.now ≡ Err e) }
{
    match items {
        [] => Err(CmdFault::BadValue(place)),
        [item] => item_value(row.kind, row.special, item)?.ok_or(CmdFault::BadValue(place)),
        [_, _, ..] => Err(CmdFault::TooManyValues(place)),
    }
}

/// The compare value of a key, whose item begins at `place`.
pub fn compared(place: u32, items: &[Item]) -> Result<Value, CmdFault>
    ensures ok { IfOk result (λ v. compared place items.now ≡ Ok v) }
    ensures err { IfErr result (λ e. e ≢ CmdFault.NoMemory → compared place items.now ≡ Err e) }
{
    match items {
        [] => Err(CmdFault::BadValue(place)),
        [item] if is_word(item, b"*ANY") => Ok(Value::Compare(Cmp::Any)),
        [item] => text_from(text_of(item), Some(1))?.ok_or(CmdFault::BadValue(place)),
        [item, _] if is_word(item, b"*ANY") => Err(CmdFault::BadValue(place)),
        [item, start] => {
            text_from(text_of(item), start_of(text_of(start)))?.ok_or(CmdFault::BadValue(place))
        }
        [_, _, _, ..] => Err(CmdFault::TooManyValues(place)),
    }
}
