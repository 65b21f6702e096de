// What lines.txt asks:
//
// > typed TEXT      adds a physical line to the input of the case
// > join            the logical lines of that input, each in < and >
// > join TEXT       the logical lines of this input
// > feed TEXT       how many of the bytes one call takes, and the line that it ends
// > end             the line that the end of the input ends
// > line TEXT       whether the line that ended has these bytes
//
// An input is joined in pieces of each size, and a size that gives other lines is told.
use crate::asked;
use anyhow::Result;
use std::alloc::{AllocError, Global};
use wm_cases::{Subject, bytes_of, visible};
use wm_clwords::{Joiner, LogicalLine};

/// Logical lines.
#[derive(Drop)]
pub struct LineCases {
    alloc: Global,
    typed: Vec<u8>,
    joiner: Joiner,
}

impl LineCases {
    pub fn new(alloc: Global) -> Result<LineCases, AllocError> {
        Ok(LineCases {
            alloc,
            typed: Vec::new(alloc),
            joiner: Joiner::new(alloc)?,
        })
    }

    fn typed(&mut self, text: &str) -> Result<()> {
        self.typed.extend_from_slice(&bytes_of(self.alloc, text)?)?;
        self.typed.push(b'\n')?;
        Ok(())
    }

    fn join(&self, text: &str, answer: &mut String) -> Result<()> {
        if text.is_empty() {
            return join(self.alloc, &self.typed, answer);
        }
        let input = bytes_of(self.alloc, text)?;
        join(self.alloc, &input, answer)
    }

    fn feed(&mut self, text: &str, answer: &mut String) -> Result<()> {
        let (taken, line) = self.joiner.feed(&bytes_of(self.alloc, text)?);
        writeln!(answer, "{taken} taken")?;
        push_line(self.alloc, &self.joiner, line, answer)
    }

    fn end(&mut self, answer: &mut String) -> Result<()> {
        let line = self.joiner.end();
        push_line(self.alloc, &self.joiner, line, answer)
    }

    fn line(&self, text: &str, answer: &mut String) -> Result<()> {
        let same = self.joiner.line() == bytes_of(self.alloc, text)?.as_slice();
        writeln!(answer, "{same}")?;
        Ok(())
    }
}

impl Subject for LineCases {
    fn begin(&mut self) -> Result<()> {
        self.typed.clear();
        self.joiner = Joiner::new(self.alloc)?;
        Ok(())
    }

    fn answer(&mut self, question: &str, answer: &mut String) -> Result<()> {
        let (asked, text) = asked::parts(question);
        match asked {
            "typed" => self.typed(text),
            "join" => self.join(text, answer),
            "feed" => self.feed(text, answer),
            "end" => self.end(answer),
            "line" => self.line(text, answer),
            _ => asked::unknown(asked),
        }
    }
}

// The line that ended, if one did.
fn push_line(
    alloc: Global,
    joiner: &Joiner,
    line: Option<LogicalLine>,
    lines: &mut String,
) -> Result<()> {
    match line {
        None => Ok(()),
        Some(LogicalLine::Long) => Ok(lines.push_str("too long\n")?),
        Some(LogicalLine::Command) => push_bytes(alloc, joiner.line(), lines),
    }
}

fn push_bytes(alloc: Global, line: &[u8], lines: &mut String) -> Result<()> {
    let text = visible(alloc, line)?;
    writeln!(lines, "<{text}>")?;
    Ok(())
}

// The lines that a piece ends.
fn feed_all(alloc: Global, joiner: &mut Joiner, piece: &[u8], lines: &mut String) -> Result<()> {
    let mut rest = piece;
    for _ in 0..=piece.len() {
        let (taken, line) = joiner.feed(rest);
        rest = &rest[taken..];
        if line.is_none() {
            return Ok(());
        }
        push_line(alloc, joiner, line, lines)?;
    }
    Ok(())
}

// The lines of an input that comes in pieces of this size.
fn joined(alloc: Global, input: &[u8], size: usize) -> Result<String> {
    let mut joiner = Joiner::new(alloc)?;
    let mut lines = String::new(alloc);
    for piece in input.chunks(size.max(1)) {
        feed_all(alloc, &mut joiner, piece, &mut lines)?;
    }
    let line = joiner.end();
    push_line(alloc, &joiner, line, &mut lines)?;
    Ok(lines)
}

fn join(alloc: Global, input: &[u8], answer: &mut String) -> Result<()> {
    let whole = joined(alloc, input, input.len())?;
    answer.push_str(whole.as_str())?;
    for size in 1..=input.len() {
        let lines = joined(alloc, input, size)?;
        if lines.as_str() != whole.as_str() {
            writeln!(answer, "other lines in pieces of {size}")?;
        }
    }
    Ok(())
}
