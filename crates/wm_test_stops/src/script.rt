// Scripts: what is done with a store, step by step, and the rows after each step.
use anyhow::{Context, Result, bail, ensure};
use std::alloc::Global;
use wm_base::{Text, is_text};
use wm_traits::{Row, RowChange};

/// What a step does: an `apply`, or an end behind which the store is opened again. A kill writes nothing more, and a close
/// copies the log into the database.
#[derive(Drop)]
pub enum Act {
    Apply(Vec<RowChange>),
    Kill,
    Close,
}

/// An act, and the rows after it.
#[derive(Drop)]
pub struct Step {
    pub act: Act,
    pub rows: Vec<Row>,
}

fn text(alloc: Global, word: &str) -> Result<Text> {
    ensure!(is_text(word.as_bytes()), "not a text: {word}");
    Ok(Text::from_bytes(alloc, word.as_bytes())?)
}

// The change of `put 1 A = x` or of `del 1 A`.
fn change(alloc: Global, words: &str) -> Result<RowChange> {
    let mut words = words.split(' ');
    let word = words.next().unwrap_or("");
    let tab = words.next().context("no table")?.parse::<u8>()?;
    let key = text(alloc, words.next().context("no key")?)?;
    match word {
        "put" => {
            let body = text(alloc, words.nth(1).context("no body")?)?;
            Ok(RowChange::Put(Row { tab, key, body }))
        }
        "del" => Ok(RowChange::Del(tab, key)),
        _ => bail!("no such change: {word}"),
    }
}

fn push_change(alloc: Global, changes: &mut Vec<RowChange>, words: &str) -> Result<()> {
    Ok(changes.push(change(alloc, words)?)?)
}

/// The changes of `put 1 A = x | del 1 A`.
pub fn changes(alloc: Global, words: &str) -> Result<Vec<RowChange>> {
    let mut changes = Vec::new(alloc);
    for words in words.split(" | ") {
        push_change(alloc, &mut changes, words)?;
    }
    Ok(changes)
}

/// The rows after this step, from 1. After the opening, 0, there are none, and the close behind the last step changes none.
fn rows_after(steps: &[Step], step: usize) -> &[Row] {
    match step
        .min(steps.len())
        .checked_sub(1)
        .and_then(|at| steps.get(at))
    {
        Some(step) => &step.rows,
        None => &[],
    }
}

/// Whether the rows are those from before or after the step.
pub fn is_right(steps: &[Step], step: usize, rows: &[Row]) -> bool {
    rows == rows_after(steps, step.saturating_sub(1)) || rows == rows_after(steps, step)
}
