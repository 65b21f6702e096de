// What commands.txt asks:
//
// > check TEXT        whether the line changes or reads, or the number of its fault and the keys that it names. A caret
//                     stands before the item that has the fault; where the fault stands elsewhere, its place is told
// > print TEXT        the canonical text of a command, which is read and printed once more
// > value TEXT        the line that is read, with its values
// > opening           how many commands make the opening state
// > opening N TEXT    whether the text is read as the Nth of these
use crate::asked;
use crate::faults::{found, numbered, read_line};
use anyhow::{Result, bail};
use std::alloc::{AllocError, Global};
use wm_base::Text;
use wm_cases::Subject;
use wm_command::{CmdFault, Line, print};
use wm_core::opening_commands;
use wm_law::Command;

/// Commands, their faults and their canonical texts.
#[derive(Drop)]
pub struct CommandCases {
    alloc: Global,
}

impl CommandCases {
    pub fn new(alloc: Global) -> CommandCases {
        CommandCases { alloc }
    }
}

impl Subject for CommandCases {
    fn begin(&mut self) -> Result<()> {
        Ok(())
    }

    fn answer(&mut self, question: &str, answer: &mut String) -> Result<()> {
        let (asked, text) = asked::parts(question);
        match asked {
            "check" => check(self.alloc, text, answer),
            "print" => print_twice(self.alloc, text, answer),
            "value" => write_value(self.alloc, text, answer),
            "opening" if text.is_empty() => count_opening(self.alloc, answer),
            "opening" => compare_opening(self.alloc, text, answer),
            _ => asked::unknown(asked),
        }
    }
}

fn without_caret(alloc: Global, text: &str) -> Result<Vec<u8>, AllocError> {
    let mut bytes = Vec::new(alloc);
    for byte in text.as_bytes() {
        if *byte != b'^' {
            bytes.push(*byte)?;
        }
    }
    Ok(bytes)
}

fn push_fault(fault: CmdFault, caret: usize, answer: &mut String) -> Result<()> {
    let (number, place) = numbered(fault);
    write!(answer, "{number}")?;
    push_keys(fault, answer)?;
    push_place(place, caret, answer)?;
    Ok(())
}

fn push_keys(fault: CmdFault, answer: &mut String) -> Result<(), AllocError> {
    match fault {
        CmdFault::Missing(key) => write!(answer, " {key}"),
        CmdFault::Conflict(key, other) => write!(answer, " {key} {other}"),
        _ => Ok(()),
    }
}

fn push_place(place: usize, caret: usize, answer: &mut String) -> Result<(), AllocError> {
    if place == caret {
        return answer.push('\n');
    }
    writeln!(answer, " at {place}")
}

fn check(alloc: Global, text: &str, answer: &mut String) -> Result<()> {
    let bytes = without_caret(alloc, text)?;
    if let Some(fault) = found(alloc, &bytes)? {
        return push_fault(fault, text.find('^').unwrap_or(0), answer);
    }
    let word = changes_or_reads(&read_line(alloc, &bytes)?);
    answer.push_str(word)?;
    Ok(())
}

fn changes_or_reads(line: &Line) -> &'static str {
    match line {
        Line::Change(_) => "changes\n",
        Line::Read(_) => "reads\n",
    }
}

fn canonical(alloc: Global, bytes: &[u8]) -> Result<Text> {
    print_line(alloc, &read_line(alloc, bytes)?)
}

fn print_line(alloc: Global, line: &Line) -> Result<Text> {
    match line {
        Line::Change(command) => Ok(print(alloc, command)?),
        Line::Read(_) => bail!("no canonical text"),
    }
}

fn print_twice(alloc: Global, text: &str, answer: &mut String) -> Result<()> {
    let printed = canonical(alloc, text.as_bytes())?;
    writeln!(answer, "{printed}")?;
    print_again(alloc, &printed, answer)
}

// Tells where the canonical text is read as another command.
fn print_again(alloc: Global, printed: &Text, answer: &mut String) -> Result<()> {
    let again = canonical(alloc, printed.as_bytes())?;
    if again != *printed {
        writeln!(answer, "and then {again}")?;
    }
    Ok(())
}

fn write_value(alloc: Global, text: &str, answer: &mut String) -> Result<()> {
    write_line(&read_line(alloc, text.as_bytes())?, answer)
}

fn write_line(line: &Line, answer: &mut String) -> Result<()> {
    writeln!(answer, "{line:?}")?;
    Ok(())
}

fn count_opening(alloc: Global, answer: &mut String) -> Result<()> {
    let commands = opening_commands(alloc)?;
    writeln!(answer, "{}", commands.len())?;
    Ok(())
}

fn compare_opening(alloc: Global, text: &str, answer: &mut String) -> Result<()> {
    let (number, text) = asked::parts(text);
    let same = is_opening(alloc, number.parse::<usize>()?, text)?;
    writeln!(answer, "{same}")?;
    Ok(())
}

// Whether a text is read as the command with this number of those that make the opening state: whether both have one
// canonical text.
fn is_opening(alloc: Global, number: usize, text: &str) -> Result<bool> {
    is_opening_line(alloc, number, &read_line(alloc, text.as_bytes())?)
}

fn is_opening_line(alloc: Global, number: usize, line: &Line) -> Result<bool> {
    let commands = opening_commands(alloc)?;
    is_change(alloc, line, commands.get(number.wrapping_sub(1)))
}

fn is_change(alloc: Global, line: &Line, command: Option<&Command>) -> Result<bool> {
    match (line, command) {
        (Line::Change(read), Some(command)) => Ok(print(alloc, read)? == print(alloc, command)?),
        _ => Ok(false),
    }
}
