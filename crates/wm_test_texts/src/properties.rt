// What holds of each key of a command, asked by items behind the command's head.
use crate::faults::{found, numbered};
use anyhow::{Result, anyhow};
use std::alloc::Global;
use wm_command::CmdFault;

/// The number of no fault: the line is read.
const TAKEN: u8 = 0;

const UNKNOWN_KEYWORD: u8 = 2;

const TWICE: u8 = 3;

const BAD_VALUE: u8 = 5;

const TOO_MANY_VALUES: u8 = 6;

/// Items behind a command's head, how many were tried, and the answer to which those go that are answered otherwise
/// than they should.
#[derive(Drop)]
pub struct Tried<'a> {
    alloc: Global,
    head: &'a str,
    answer: &'a mut String,
    count: u64,
}

impl<'a> Tried<'a> {
    pub fn new(alloc: Global, head: &'a str, answer: &'a mut String) -> Tried<'a> {
        Tried {
            alloc,
            head,
            answer,
            count: 0,
        }
    }

    pub fn count(&self) -> u64 {
        self.count
    }

    // The fault of an item behind a head is the one with this number, and stands at the item.
    fn expect_behind(&mut self, head: &str, item: &str, number: u8) -> Result<()> {
        let line = format!(in self.alloc; "{head} {item}")?;
        let at = head.len().saturating_add(1);
        let (got, place) = answered(found(self.alloc, line.as_bytes())?, at);
        self.count = self.count.saturating_add(1);
        if got != number || place != at {
            writeln!(self.answer, "{line}: {got} at {place}")?;
        }
        Ok(())
    }

    fn expect(&mut self, item: &str, number: u8) -> Result<()> {
        let head = self.head;
        self.expect_behind(head, item, number)
    }

    fn expect_value(&mut self, key: &str, value: &str, number: u8) -> Result<()> {
        let item = format!(in self.alloc; "{key}({value})")?;
        self.expect(item.as_str(), number)
    }

    // The fault of each value of a key.
    fn expect_all(&mut self, key: &str, values: &str, number: u8) -> Result<()> {
        for value in values.split_whitespace() {
            self.expect_value(key, value, number)?;
        }
        Ok(())
    }

    fn expect_two(&mut self, key: &str, good: &str, bad: &str) -> Result<()> {
        let item = format!(in self.alloc; "{key}({good} {bad})")?;
        self.expect(item.as_str(), TOO_MANY_VALUES)
    }

    fn expect_twice(&mut self, key: &str, good: &str) -> Result<()> {
        let head = format!(in self.alloc; "{} {key}({good})", self.head)?;
        let item = format!(in self.alloc; "{key}()")?;
        self.expect_behind(head.as_str(), item.as_str(), TWICE)
    }

    // A special word in apostrophes is a text, which the key refuses.
    fn expect_quoted(&mut self, key: &str, special: &str) -> Result<()> {
        if special.is_empty() {
            return Ok(());
        }
        let item = format!(in self.alloc; "{key}('{special}')")?;
        self.expect(item.as_str(), BAD_VALUE)
    }

    // The head alone is a line, or misses the key where that has a `!`.
    fn required(&mut self, key: &str) -> Result<()> {
        let fault = found(self.alloc, self.head.as_bytes())?;
        self.count = self.count.saturating_add(1);
        if !misses(fault, key.strip_suffix('!')) {
            writeln!(self.answer, "{}: {fault:?}", self.head)?;
        }
        Ok(())
    }

    /// The key takes some values and its special word, and refuses others. It takes one value, and is given once.
    pub fn key(&mut self, key: &str, special: &str, taken: &str, refused: &str) -> Result<()> {
        self.required(key)?;
        let key = key.trim_end_matches('!');
        self.takes(key, special, taken, refused)?;
        self.takes_one(key, first_of(taken)?, first_of(refused)?)
    }

    fn takes(&mut self, key: &str, special: &str, taken: &str, refused: &str) -> Result<()> {
        self.expect_all(key, taken, TAKEN)?;
        self.expect_all(key, special, TAKEN)?;
        self.expect_all(key, refused, BAD_VALUE)?;
        self.expect_quoted(key, special)
    }

    fn takes_one(&mut self, key: &str, good: &str, bad: &str) -> Result<()> {
        self.expect_value(key, "", BAD_VALUE)?;
        self.expect_two(key, good, bad)?;
        self.expect_twice(key, good)
    }

    /// The first key stands alone once, and is given then. Of all keys the command has its own alone.
    pub fn command(&mut self, first: &str, keys: &str, all: &str) -> Result<()> {
        self.expect(first, TWICE)?;
        for item in ["A", "'A'", "(A)"] {
            self.expect(item, TOO_MANY_VALUES)?;
        }
        self.no_others(keys, all)
    }

    fn no_others(&mut self, keys: &str, all: &str) -> Result<()> {
        for key in all.split_whitespace() {
            if !has_word(keys, key) {
                self.expect_value(key, "A", UNKNOWN_KEYWORD)?;
            }
        }
        Ok(())
    }

    fn expect_letters(&mut self, around: (&str, &str), length: u16, number: u8) -> Result<()> {
        let item = letters(self.alloc, around.0, around.1, length)?;
        self.expect(item.as_str(), number)
    }

    /// A text of letters has its least and its most length.
    pub fn lengths(
        &mut self,
        around: (&str, &str),
        least: u16,
        most: u16,
        number: u8,
    ) -> Result<()> {
        if least > 0 {
            self.expect_letters(around, least - 1, number)?;
        }
        self.expect_letters(around, least, TAKEN)?;
        self.expect_letters(around, most, TAKEN)?;
        self.expect_letters(around, most.saturating_add(1), number)
    }
}

// The number and the place of a fault of an item that stands there, which itself is its place where it is taken.
fn answered(fault: Option<CmdFault>, at: usize) -> (u8, usize) {
    match fault {
        None => (TAKEN, at),
        Some(fault) => numbered(fault),
    }
}

// Whether the fault is that this key is missing, or there is neither.
fn misses(fault: Option<CmdFault>, key: Option<&str>) -> bool {
    match (fault, key) {
        (None, None) => true,
        (Some(CmdFault::Missing(missing)), Some(key)) => missing.word() == key,
        _ => false,
    }
}

fn first_of(values: &str) -> Result<&str> {
    values.split_whitespace().next().ok_or(anyhow!("no values"))
}

fn has_word(words: &str, word: &str) -> bool {
    words.split_whitespace().any(|own| own == word)
}

fn letters(alloc: Global, open: &str, close: &str, length: u16) -> Result<String> {
    let mut text = open.to_string(alloc)?;
    for _ in 0..length {
        text.push('A')?;
    }
    text.push_str(close)?;
    Ok(text)
}
