// What the items of a command give its keys.
ghost use Rattle.std.specs.Prelude.{◌≡◌, ◌≢◌, IfOk, IfErr, OnOk, Ok, Err, Some};
ghost use Rattle.std.specs.Option.{option_copied};
ghost use Rattle.wm_command.specs.Each.{each};
ghost use Rattle.wm_command.specs.Table.{row_key, row_kind, row_special, row_otherwise};
ghost use Rattle.wm_command.specs.Reading.{same_key, is_given, row_named, row_value, with_value, keyed, next_item, stands_alone, first_item, items_given, default_value, complete, all_given};

use crate::call::call_value;
use crate::fault::CmdFault;
use crate::row::{Default, Kind, Row};
use crate::value::{Value, Values};
use crate::values::{compared, one_value};
use crate::{key_of, listed, place_of};
use std::alloc::Global;
use std::slice;
use wm_base::{Key, Text};
use wm_clwords::Item;
use wm_desc::{qbatch, qdftjobd};
use wm_law::EndOption;
use wm_when::{DateSpec, TimeSpec};

/// Whether keys are the same.
#[tactic(auto, unfolding(crate::specs::Reading::same_key))]
pub fn same_key(a: Key, b: Key) -> bool
    ensures { result ≡ same_key a b }
{
    a.word().as_bytes() == b.word().as_bytes()
}

fn is_given(key: Key, values: &Values) -> bool
    ensures { result ≡ is_given key values.now }
{
    values
        .as_slice()
        .iter()
        .any(|given| same_key(given.key, key))
}

#[tactic(auto, unfolding(crate::specs::Reading::row_named))]
fn row_named(word: &[u8], rows: &[Row]) -> Option<Row>
    ensures { result ≡ row_named word.now rows.now }
{
    rows.iter()
        .copied()
        .find(|row| row.key.word().as_bytes() == word)
}

/// The value of a key, whose item begins at `place`.
fn row_value(alloc: Global, row: &Row, place: u32, items: &[Item]) -> Result<Value, CmdFault>
    ensures ok { IfOk result (λ v. row_value (row_kind row.now) (row_special row.now) place items.now ≡ Ok v) }
    ensures err { IfErr result (λ e. e ≢ CmdFault.NoMemory → row_value (row_kind row.now) (row_special row.now) place items.now ≡ Err e) }
{
    match row.kind {
        Kind::Compare => compared(place, items),
        Kind::Call => call_value(alloc, place, items),
        Kind::Anything => Ok(Value::Nothing),
        _ => one_value(row, place, items),
    }
}

/// An item gives a key its value.
#[tactic(auto, unfolding(crate::specs::Reading::next_item))]
fn next_item(alloc: Global, rows: &[Row], values: &mut Values, item: &Item) -> Result<(), CmdFault>
    ensures ok { OnOk result (next_item rows.now values.old item.now ≡ Ok values.new) }
    ensures err { IfErr result (λ e. e ≢ CmdFault.NoMemory → next_item rows.now values.old item.now ≡ Err e) }
{
    let place = place_of(item);
    let Some(key) = key_of(item) else {
        return Err(CmdFault::TooManyValues(place));
    };
    let Some(row) = row_named(key.as_bytes(), rows) else {
        return Err(CmdFault::UnknownKeyword(place));
    };
    if is_given(row.key, values) {
        return Err(CmdFault::Twice(place));
    }
    let value = row_value(alloc, &row, place, listed(item))?;
    values.push(row.key, value)?;
    Ok(())
}

/// A value that stands alone is that of the first key.
#[tactic(auto, unfolding(crate::specs::Reading::first_item))]
fn first_item(alloc: Global, rows: &[Row], item: &Item) -> Result<Values, CmdFault>
    ensures ok { IfOk result (λ given. first_item rows.now item.now ≡ Ok given) }
    ensures err { IfErr result (λ e. e ≢ CmdFault.NoMemory → first_item rows.now item.now ≡ Err e) }
{
    let mut values = Values::with_room(alloc, rows.len())?;
    if key_of(item).is_some() {
        next_item(alloc, rows, &mut values, item)?;
        return Ok(values);
    }
    let place = place_of(item);
    let [row, ..] = rows else {
        return Err(CmdFault::TooManyValues(place));
    };
    let value = row_value(alloc, row, place, slice::from_ref(item))?;
    values.push(row.key, value)?;
    Ok(values)
}

fn items_given(alloc: Global, rows: &[Row], items: &[Item]) -> Result<Values, CmdFault>
    ensures ok { IfOk result (λ given. items_given rows.now items.now ≡ Ok given) }
    ensures err { IfErr result (λ e. e ≢ CmdFault.NoMemory → items_given rows.now items.now ≡ Err e) }
{
    match items {
        [] => Ok(Values::with_room(alloc, rows.len())?),
        [first, rest @ ..] => {
            let mut values = first_item(alloc, rows, first)?;
            for item in rest {
                next_item(alloc, rows, &mut values, item)?;
            }
            Ok(values)
        }
    }
}

/// What a key has where it isn't given.
fn default_value(alloc: Global, row: &Row) -> Result<Value, CmdFault>
    ensures ok { IfOk result (λ v. default_value (row_otherwise row.now) (row_key row.now) (row_special row.now) ≡ Ok v) }
    ensures err { IfErr result (λ e. e ≢ CmdFault.NoMemory → default_value (row_otherwise row.now) (row_key row.now) (row_special row.now) ≡ Err e) }
{
    match row.otherwise {
        Default::Required => Err(CmdFault::Missing(row.key)),
        Default::Nothing => Ok(Value::Nothing),
        Default::Special => Ok(Value::Special(row.special)),
        Default::Number(n) => Ok(Value::Number(n)),
        Default::Yes => Ok(Value::Flag(true)),
        Default::No => Ok(Value::Flag(false)),
        Default::Cntrld => Ok(Value::Ending(EndOption::Cntrld)),
        Default::Qbatch => Ok(Value::Object(qbatch())),
        Default::Qdftjobd => Ok(Value::Object(qdftjobd())),
        Default::Qcmdi => Ok(Value::Text(Text::from_bytes(alloc, b"QCMDI")?)),
        Default::Qcmdb => Ok(Value::Text(Text::from_bytes(alloc, b"QCMDB")?)),
        Default::Today => Ok(Value::Date(DateSpec::Current)),
        Default::Now => Ok(Value::Time(TimeSpec::Current)),
    }
}

#[tactic(auto, unfolding(crate::specs::Reading::complete))]
fn complete(alloc: Global, values: &mut Values, row: &Row) -> Result<(), CmdFault>
    ensures ok { OnOk result (complete values.old row.now ≡ Ok values.new) }
    ensures err { IfErr result (λ e. e ≢ CmdFault.NoMemory → complete values.old row.now ≡ Err e) }
{
    if is_given(row.key, values) {
        return Ok(());
    }
    let value = default_value(alloc, row)?;
    values.push(row.key, value)?;
    Ok(())
}

fn complete_all(alloc: Global, values: &mut Values, rows: &[Row]) -> Result<(), CmdFault>
    ensures ok { OnOk result (each complete values.old rows.now ≡ Ok values.new) }
    ensures err { IfErr result (λ e. e ≢ CmdFault.NoMemory → each complete values.old rows.now ≡ Err e) }
{
    for row in rows {
        complete(alloc, values, row)?;
    }
    Ok(())
}

/// All keys of the table with their values.
pub fn all_given(alloc: Global, rows: &[Row], items: &[Item]) -> Result<Values, CmdFault>
    ensures ok { IfOk result (λ given. all_given rows.now items.now ≡ Ok given) }
    ensures err { IfErr result (λ e. e ≢ CmdFault.NoMemory → all_given rows.now items.now ≡ Err e) }
{
    let mut values = items_given(alloc, rows, items)?;
    complete_all(alloc, &mut values, rows)?;
    Ok(values)
}
