// Rows as a case writes them.
use anyhow::{Context, Result, bail, ensure};
use std::alloc::Global;
use wm_base::{Text, is_text};
use wm_cases::bytes_of;
use wm_traits::Row;

fn text(alloc: Global, written: &str) -> Result<Text> {
    let bytes = bytes_of(alloc, written)?;
    ensure!(is_text(&bytes), "no text: {written}");
    Ok(Text::from_bytes(alloc, &bytes)?)
}

/// The row of `1|QGPL/NIGHT|BODY`: its table, its key and its body. A blank at an end stands as `\x20`.
pub fn row(alloc: Global, written: &str) -> Result<Row> {
    let (tab, rest) = written.split_once('|').context("a table")?;
    let (key, body) = rest.split_once('|').context("a key")?;
    Ok(Row {
        tab: tab.parse::<u8>()?,
        key: text(alloc, key)?,
        body: text(alloc, body)?,
    })
}

/// The fault of a question that no case has.
pub fn unknown(question: &str) -> Result<()> {
    bail!("no question: {question}")
}
