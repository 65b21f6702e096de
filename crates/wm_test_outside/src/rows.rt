// Rows and changes as a case writes them, and the answers of keepers.
use super::answers::FAILED;
use super::orders::text;
use super::words::{BAR, first_word};
use anyhow::{Context, Result, bail};
use std::alloc::Global;
use std::fmt::Write;
use wm_traits::{KeepFault, Keeper, Row, RowChange};

// The row of `1 A = x`: its table, its key and its body.
fn row(alloc: Global, words: &str) -> Result<Row> {
    let (place, body) = words.split_once(" = ").context("no body")?;
    let (tab, key) = first_word(place);
    Ok(Row {
        tab: tab.parse::<u8>()?,
        key: text(alloc, key)?,
        body: text(alloc, body)?,
    })
}

fn push_row(alloc: Global, rows: &mut Vec<Row>, words: &str) -> Result<()> {
    Ok(rows.push(row(alloc, words)?)?)
}

/// The rows of `1 A = x | 1 B = y`.
pub fn rows(alloc: Global, words: &str) -> Result<Vec<Row>> {
    let mut rows = Vec::new(alloc);
    for words in words.split(BAR) {
        push_row(alloc, &mut rows, words)?;
    }
    Ok(rows)
}

// The change of `put 1 A = x` or of `del 1 A`.
fn change(alloc: Global, words: &str) -> Result<RowChange> {
    let (word, rest) = first_word(words);
    match word {
        "put" => Ok(RowChange::Put(row(alloc, rest)?)),
        "del" => {
            let (tab, key) = first_word(rest);
            Ok(RowChange::Del(tab.parse::<u8>()?, text(alloc, key)?))
        }
        _ => bail!("no such change: {words}"),
    }
}

fn push_change(alloc: Global, changes: &mut Vec<RowChange>, words: &str) -> Result<()> {
    Ok(changes.push(change(alloc, words)?)?)
}

// The changes of `put 1 A = x | del 1 A`, or none.
fn changes(alloc: Global, words: &str) -> Result<Vec<RowChange>> {
    let mut changes = Vec::new(alloc);
    if words.is_empty() {
        return Ok(changes);
    }
    for words in words.split(BAR) {
        push_change(alloc, &mut changes, words)?;
    }
    Ok(changes)
}

pub fn answer_fault(fault: KeepFault, answer: &mut String) -> Result<()> {
    answer.push_str(match fault {
        KeepFault::Failed => FAILED,
        KeepFault::NoMemory => "NO MEMORY\n",
    })?;
    Ok(())
}

/// Applies `put 1 A = x | del 1 A`, or nothing.
pub fn apply<K: Keeper>(
    alloc: Global,
    keeper: &mut K,
    words: &str,
    answer: &mut String,
) -> Result<()> {
    let changes = changes(alloc, words)?;
    answer_applied(keeper.apply(&changes), answer)
}

fn answer_applied(applied: Result<(), KeepFault>, answer: &mut String) -> Result<()> {
    match applied {
        Ok(()) => Ok(answer.push_str("APPLIED\n")?),
        Err(fault) => answer_fault(fault, answer),
    }
}

/// The rows, a line each.
pub fn answer_rows(rows: &[Row], answer: &mut String) -> Result<()> {
    for row in rows {
        writeln!(answer, "{} {} = {}", row.tab, row.key, row.body)?;
    }
    Ok(())
}

/// A number in a line.
pub fn answer_number(number: u64, answer: &mut String) -> Result<()> {
    writeln!(answer, "{number}")?;
    Ok(())
}
