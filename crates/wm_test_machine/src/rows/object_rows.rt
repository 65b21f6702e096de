// What rows.txt asks:
//
// > row TEXT              the row that the command of this CL text makes, as `TAB|KEY|BODY`, or `NONE`
// > read TAB|KEY|BODY     what the row holds: `MADE` and the canonical text of the command that makes it again,
//                         `HELD LIB/NAME`, `COUNTER WORD N`, or `NONE` where it's no row of these
use super::words;
use crate::change::line_of;
use anyhow::{Result, bail};
use std::alloc::Global;
use wm_base::Name;
use wm_cases::Subject;
use wm_command::{Line, print};
use wm_rows::{Counter, Stored, command_row, read_row};
use wm_traits::Row;

/// The rows of objects, entries, held queues and counters.
#[derive(Drop)]
pub struct RowCases {
    alloc: Global,
}

impl RowCases {
    pub fn new(alloc: Global) -> RowCases {
        RowCases { alloc }
    }
}

impl Subject for RowCases {
    fn begin(&mut self) -> Result<()> {
        Ok(())
    }

    fn answer(&mut self, question: &str, answer: &mut String) -> Result<()> {
        match question.split_once(' ') {
            Some(("row", text)) => tell_row(self.alloc, text, answer),
            Some(("read", written)) => tell_read(self.alloc, written, answer),
            _ => words::unknown(question),
        }
    }
}

fn tell_row(alloc: Global, text: &str, answer: &mut String) -> Result<()> {
    let row = row_of_text(alloc, text)?;
    push_row(&row, answer)
}

fn row_of_text(alloc: Global, text: &str) -> Result<Option<Row>> {
    let line = line_of(alloc, &Name::of(b"ANN"), text)?;
    row_of_line(alloc, &line)
}

fn row_of_line(alloc: Global, line: &Line) -> Result<Option<Row>> {
    match line {
        Line::Change(command) => Ok(command_row(alloc, command)?),
        Line::Read(_) => bail!("a command that makes nothing"),
    }
}

fn push_row(row: &Option<Row>, answer: &mut String) -> Result<()> {
    match row {
        None => writeln!(answer, "NONE")?,
        Some(row) => writeln!(answer, "{}|{}|{}", row.tab, row.key, row.body)?,
    }
    Ok(())
}

fn tell_read(alloc: Global, written: &str, answer: &mut String) -> Result<()> {
    let row = words::row(alloc, written)?;
    let stored = read_row(alloc, &row)?;
    push_read(alloc, &stored, answer)
}

fn push_read(alloc: Global, stored: &Option<Stored>, answer: &mut String) -> Result<()> {
    match stored {
        None => writeln!(answer, "NONE")?,
        Some(Stored::Made(command)) => writeln!(answer, "MADE {}", print(alloc, command)?)?,
        Some(Stored::Held(jobq)) => writeln!(answer, "HELD {jobq}")?,
        Some(Stored::Counter(counter, n)) => writeln!(answer, "COUNTER {} {n}", word(*counter))?,
    }
    Ok(())
}

fn word(counter: Counter) -> &'static str {
    match counter {
        Counter::Number => "NUMBER",
        Counter::Place => "PLACE",
        Counter::Schema => "SCHEMA",
        Counter::Serial => "SERIAL",
    }
}
