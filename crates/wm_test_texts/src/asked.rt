// The parts of a question.
use anyhow::{Result, bail};

/// The word that says what is asked, and what stands behind it.
pub fn parts(question: &str) -> (&str, &str) {
    question.split_once(' ').unwrap_or((question, ""))
}

/// The fault of a word that asks nothing.
pub fn unknown(asked: &str) -> Result<()> {
    bail!("no question: {asked}")
}
