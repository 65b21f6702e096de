// The rows of counters.
ghost use Rattle.std.specs.Prelude.{◌≡◌, ℕ, ◌<◌, ◌^◌, IfOk, IfSome, Some};
ghost use Rattle.std.specs.Fmt.{decimal};
ghost use Rattle.wm_base.specs.Text.{IsText};
ghost use Rattle.wm_command.specs.Words.{same};
ghost use Rattle.wm_rows.specs.Fitting.{counter_named};
ghost use Rattle.wm_rows.specs.Rows.{counter_word, counter_row};

use crate::place::COUNTERS;
use crate::stored::Counter;
use std::alloc::Global;
use wm_base::{NoMemory, Text};
use wm_traits::Row;

/// The key of a counter's row.
pub fn counter_word(counter: Counter) -> &'static [u8]
    ensures value { result.now ≡ counter_word counter }
    ensures text { IsText result.now }
{
    match counter {
        Counter::Number => b"NUMBER",
        Counter::Place => b"PLACE",
        Counter::Schema => b"SCHEMA",
        Counter::Serial => b"SERIAL",
    }
}

#[tactic(auto, using(wm_command::proofs::Texts::texts))]
fn number_text(alloc: Global, n: u64) -> Result<Text, NoMemory>
    ensures { IfOk result (λ text. text ≡ decimal n) }
{
    let digits = format!(in alloc; "{n}")?;
    let text = Text::from_bytes(alloc, digits.as_bytes())?;
    Ok(text)
}

/// A counter's row. An `Err` is want of memory.
pub fn counter_row(alloc: Global, counter: Counter, n: u64) -> Result<Row, NoMemory>
    ensures { IfOk result (λ row. row ≡ counter_row counter n) }
{
    let key = Text::from_bytes(alloc, counter_word(counter))?;
    let body = number_text(alloc, n)?;
    Ok(Row {
        tab: COUNTERS,
        key,
        body,
    })
}

fn same(key: &[u8], word: &[u8]) -> bool
    ensures { result ≡ same key.now word.now }
{
    key == word
}

/// The counter with a key.
pub fn counter_named(key: &[u8]) -> Option<Counter>
    ensures { result ≡ counter_named key.now }
{
    if same(key, b"NUMBER") {
        Some(Counter::Number)
    } else if same(key, b"PLACE") {
        Some(Counter::Place)
    } else if same(key, b"SCHEMA") {
        Some(Counter::Schema)
    } else if same(key, b"SERIAL") {
        Some(Counter::Serial)
    } else {
        None
    }
}

/// The number that a body is, if it is one. Some other bodies are read too.
pub fn read_number(body: &Text) -> Option<u64>
    ensures fitting { IfSome result (λ n. n < 2 ^ 64) }
    ensures exactly { (n : ℕ) → n < 2 ^ 64 → body.now ≡ decimal n → result ≡ Some n }
{
    match body.as_str().parse::<u64>() {
        Ok(n) => Some(n),
        Err(_) => None,
    }
}
