// The words of a question.
use anyhow::{Result, anyhow, ensure};
use std::alloc::Global;
use wm_base::{Moment, Serial};

/// What parts the calls of one question, and the arguments of a program.
pub const BAR: &str = " | ";

/// The first word, and what stands behind it.
pub fn first_word(text: &str) -> (&str, &str) {
    text.split_once(' ').unwrap_or((text, ""))
}

/// What stands behind a name, among parts that commas part.
pub fn named<'a>(text: &'a str, name: &str) -> Option<&'a str> {
    text.split(", ").find_map(|part| part.strip_prefix(name))
}

/// The numbers of the calls that fail: those behind the name, or none.
pub fn failing(alloc: Global, text: &str, name: &str) -> Result<Vec<u32>> {
    let mut calls = Vec::new(alloc);
    if let Some(numbers) = named(text, name) {
        for number in numbers.split(' ') {
            calls.push(number.parse::<u32>()?)?;
        }
    }
    Ok(calls)
}

/// A moment in seconds.
pub fn moment(text: &str) -> Result<Moment> {
    let seconds = text.parse::<u64>()?;
    ensure!(seconds <= Moment::MAX, "a moment past the greatest");
    Ok(Moment::new(seconds))
}

pub fn serial(text: &str) -> Result<Serial> {
    Ok(Serial::new(text.parse::<u64>()?))
}

/// The fault of a word that no case has.
pub fn unknown(question: &str) -> Result<()> {
    Err(anyhow!("no such question: {question}"))
}
