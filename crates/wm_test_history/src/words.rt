// The words of a question.
use anyhow::{Context, Result, bail, ensure};
use std::alloc::Global;
use wm_base::{Moment, Text, is_text};
use wm_cases::bytes_of;
use wm_traits::Row;

/// The first word, and what stands behind it.
pub fn first_word(words: &str) -> (&str, &str) {
    words.split_once(' ').unwrap_or((words, ""))
}

pub fn number_of(word: &str) -> Result<u64> {
    let number = word.parse::<u64>().context(format_args!("{word}"))?;
    Ok(number)
}

/// The numbers behind a name, among words.
pub fn numbers(alloc: Global, words: &str, name: &str) -> Result<Vec<u32>> {
    let mut found = Vec::new(alloc);
    let mut behind = false;
    for word in words.split(' ') {
        match word.parse::<u32>() {
            Ok(number) => {
                if behind {
                    found.push(number)?;
                }
            }
            Err(_) => behind = word == name,
        }
    }
    Ok(found)
}

/// The moment of this number.
pub fn moment_of(word: &str) -> Result<Moment> {
    let moment = number_of(word)?;
    ensure!(moment <= Moment::MAX, "no moment: {moment}");
    Ok(Moment::new(moment))
}

fn text(alloc: Global, written: &str) -> Result<Text> {
    let bytes = bytes_of(alloc, written)?;
    ensure!(is_text(&bytes), "no text: {written}");
    Ok(Text::from_bytes(alloc, &bytes)?)
}

/// The row of `3|QGPL/NIGHT|BODY`: its table, its key and its body.
pub fn row(alloc: Global, written: &str) -> Result<Row> {
    let (tab, rest) = written.split_once('|').context("a table")?;
    let (key, body) = rest.split_once('|').context("a key")?;
    Ok(Row {
        tab: tab.parse::<u8>()?,
        key: text(alloc, key)?,
        body: text(alloc, body)?,
    })
}

/// The fault of a question that no case has.
pub fn unknown(question: &str) -> Result<()> {
    bail!("no question: {question}")
}
