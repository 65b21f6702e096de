// Orders of the tests. All of them have the same name and class.
use super::words::{BAR, first_word, serial};
use anyhow::{Result, ensure};
use std::alloc::Global;
use wm_base::{Args, Class, JobName, JobNumber, Limit, Name, StartOrder, Text, is_text};

/// A text of this word.
pub fn text(alloc: Global, word: &str) -> Result<Text> {
    ensure!(is_text(word.as_bytes()), "not a text: {word}");
    Ok(Text::from_bytes(alloc, word.as_bytes())?)
}

fn job() -> Result<JobName> {
    Ok(JobName {
        number: JobNumber::new(1),
        user: Name::read(b"QUSER")?,
        name: Name::read(b"A")?,
    })
}

fn push_argument(alloc: Global, args: &mut Args, word: &str) -> Result<()> {
    Ok(args.push(text(alloc, word)?)?)
}

// The path and the arguments of `/bin/a | x | y`.
fn program(alloc: Global, words: &str) -> Result<(Text, Args)> {
    let mut words = words.split(BAR);
    let path = text(alloc, words.next().unwrap_or(""))?;
    let mut args = Args::new(alloc);
    for word in words {
        push_argument(alloc, &mut args, word)?;
    }
    Ok((path, args))
}

/// The order of `7 /bin/a | x | y`: its serial, its program and the program's arguments. `pre` before the serial tells
/// a prestart job.
pub fn order(alloc: Global, words: &str) -> Result<StartOrder> {
    let (pre, words) = match words.strip_prefix("pre ") {
        Some(words) => (true, words),
        None => (false, words),
    };
    let (number, words) = first_word(words);
    let (path, args) = program(alloc, words)?;
    Ok(StartOrder {
        serial: serial(number)?,
        job: job()?,
        path,
        args,
        cls: Class {
            runpty: 50,
            timeslice: 2000,
            dftwait: Limit::NoMax,
        },
        pre,
    })
}
