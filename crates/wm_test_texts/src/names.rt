// Names, texts, arguments, and the names that have several parts.
use crate::numbers::job_number;
use anyhow::{Context, Result, ensure};
use std::alloc::Global;
use wm_base::{Args, JobName, Name, QName, Text, is_text};
use wm_cases::{bytes_of, visible};

/// The name that the bytes are.
pub fn name(alloc: Global, text: &str, answer: &mut String) -> Result<()> {
    let read = Name::read(&bytes_of(alloc, text)?);
    match read {
        Ok(name) => writeln!(answer, "{name}")?,
        Err(fault) => writeln!(answer, "{fault}")?,
    }
    Ok(())
}

/// A name in each way in which it can be seen.
pub fn views(alloc: Global, text: &str, answer: &mut String) -> Result<()> {
    let name = Name::read(text.as_bytes())?;
    let bytes = visible(alloc, name.as_bytes())?;
    writeln!(answer, "{name} {} {bytes}", name.as_str())?;
    Ok(())
}

/// Two names that are parted by this character.
pub fn two(text: &str, parted: char) -> Result<(Name, Name)> {
    let (first, second) = text.split_once(parted).context("two names")?;
    Ok((
        Name::read(first.as_bytes())?,
        Name::read(second.as_bytes())?,
    ))
}

/// How two names are ordered.
pub fn order(text: &str, answer: &mut String) -> Result<()> {
    let (first, second) = two(text, ' ')?;
    let order = if first == Name::of(second.as_bytes()) {
        "equal\n"
    } else if first < second {
        "less\n"
    } else {
        "greater\n"
    };
    answer.push_str(order)?;
    Ok(())
}

/// Whether the bytes are a text.
pub fn text(alloc: Global, text: &str, answer: &mut String) -> Result<()> {
    let bytes = bytes_of(alloc, text)?;
    writeln!(answer, "{}", is_text(&bytes))?;
    Ok(())
}

// A text of bytes that are one.
fn text_of(alloc: Global, bytes: &[u8]) -> Result<Text> {
    ensure!(is_text(bytes), "no text");
    let text = Text::from_bytes(alloc, bytes)?;
    Ok(text)
}

// Adds a piece that is a text.
fn grow(text: &mut Text, piece: &str) -> Result<()> {
    ensure!(is_text(piece.as_bytes()), "no text");
    text.push_bytes(piece.as_bytes())?;
    Ok(())
}

/// A text that got pieces at its end.
pub fn grown(alloc: Global, pieces: &str, answer: &mut String) -> Result<()> {
    let mut text = Text::new(alloc);
    for piece in pieces.split_whitespace() {
        grow(&mut text, piece)?;
    }
    write_grown(&text, answer)?;
    let same = is_copied(alloc, &text)?;
    writeln!(answer, "copied {same}")?;
    Ok(())
}

fn write_grown(text: &Text, answer: &mut String) -> Result<()> {
    writeln!(answer, "empty {}, {} bytes", text.is_empty(), text.len())?;
    writeln!(answer, "text <{}>, printed <{text}>", text.as_str())?;
    Ok(())
}

// Whether a copy is the text of the bytes that the text has as a `str`.
fn is_copied(alloc: Global, text: &Text) -> Result<bool> {
    let same = text_of(alloc, text.as_str().as_bytes())?;
    Ok(text.clone()? == same)
}

/// Arguments that got texts at their end.
pub fn args(alloc: Global, texts: &str, answer: &mut String) -> Result<()> {
    let mut args = Args::new(alloc);
    for text in texts.split_whitespace() {
        push_argument(alloc, &mut args, text)?;
    }
    write_args(&args, answer)?;
    write_copied(args, answer)
}

fn push_argument(alloc: Global, args: &mut Args, text: &str) -> Result<()> {
    args.push(text_of(alloc, text.as_bytes())?)?;
    Ok(())
}

// Whether a copy has the same texts, also when it is made again of them.
fn write_copied(args: Args, answer: &mut String) -> Result<()> {
    let copy = args.clone()?;
    let same = copy.as_slice() == args.as_slice();
    let items: Vec<Text> = args.into();
    let again = Args::from(items).as_slice() == copy.as_slice();
    writeln!(answer, "copied {same} {again}")?;
    Ok(())
}

fn write_args(args: &Args, answer: &mut String) -> Result<()> {
    writeln!(answer, "empty {}, {} texts", args.is_empty(), args.len())?;
    for text in args.as_slice() {
        writeln!(answer, "{text}")?;
    }
    Ok(())
}

/// A qualified name as it is printed.
pub fn qname(text: &str, answer: &mut String) -> Result<()> {
    let (lib, name) = two(text, ' ')?;
    writeln!(answer, "{}", QName { lib, name })?;
    Ok(())
}

/// A job's full name as it is printed.
pub fn job(text: &str, answer: &mut String) -> Result<()> {
    let (number, names) = text.split_once(' ').context("a number")?;
    let (user, name) = two(names, ' ')?;
    let number = job_number(number)?;
    writeln!(answer, "{}", JobName { number, user, name })?;
    Ok(())
}
