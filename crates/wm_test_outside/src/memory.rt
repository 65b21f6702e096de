// The forms in memory.
use super::answers::{answer_asked, answer_bytes};
use super::keepers::Keepers;
use super::spawners::ask_spawner;
use super::streams::{read, write};
use super::words::{failing, first_word, moment, named};
use anyhow::{Context, Result, ensure};
use std::alloc::Global;
use std::fmt::Write;
use std::mem;
use std::sync::Wait;
use wm_base::Moment;
use wm_cases::{Subject, bytes_of};
use wm_outside::{MemClock, MemSink, MemSource, MemSpawner};
use wm_traits::Clock;

// One of each form.
#[derive(Drop)]
struct Forms {
    source: MemSource,
    sink: MemSink,
    clock: MemClock,
    spawner: MemSpawner,
    keepers: Keepers,
}

// Puts a form in the place of the one that was, which a call lets go: what is assigned over is let go field by field.
fn put<T: Drop>(place: &mut T, made: Result<T>) -> Result<()> {
    drop(mem::replace(place, made?));
    Ok(())
}

// How many bytes a call takes or gives at the most, where that is said.
fn most(words: &str) -> Result<Option<usize>> {
    match named(words, "in pieces of ") {
        Some(number) => Ok(Some(number.parse::<usize>()?)),
        None => Ok(None),
    }
}

// The source of `abcde, in pieces of 2, failing 2`.
fn source(alloc: Global, words: &str) -> Result<MemSource> {
    let (text, options) = words.split_once(", ").unwrap_or((words, ""));
    let bytes = bytes_of(alloc, text)?;
    let fail = failing(alloc, options, "failing ")?;
    let Some(most) = most(options)? else {
        return Ok(MemSource::new(bytes, fail));
    };
    ensure!(most > 0, "pieces of no bytes");
    Ok(MemSource::in_pieces(bytes, fail, most))
}

// The sink of `in pieces of 2, failing 2`.
fn sink(alloc: Global, options: &str) -> Result<MemSink> {
    let fail = failing(alloc, options, "failing ")?;
    let Some(most) = most(options)? else {
        return Ok(MemSink::new(alloc, fail));
    };
    ensure!(most > 0, "pieces of no bytes");
    Ok(MemSink::in_pieces(alloc, fail, most))
}

// The clock of `1000 7`: its first moment, and its step.
fn clock(words: &str) -> Result<MemClock> {
    let (first, step) = first_word(words);
    Ok(MemClock::new(moment(first)?, step.parse::<u64>()?))
}

// The spawner of `lag 1, failing starts 2, failing kills 1, failing looks 1`.
fn spawner(alloc: Global, options: &str) -> Result<MemSpawner> {
    let lag = named(options, "lag ").context("no lag")?;
    Ok(MemSpawner::new(
        alloc,
        lag.parse::<u32>()?,
        failing(alloc, options, "failing starts ")?,
        failing(alloc, options, "failing kills ")?,
        failing(alloc, options, "failing looks ")?,
    ))
}

impl Forms {
    fn new(alloc: Global) -> Forms {
        Forms {
            source: MemSource::new(Vec::new(alloc), Vec::new(alloc)),
            sink: MemSink::new(alloc, Vec::new(alloc)),
            clock: MemClock::new(Moment::new(0), 0),
            spawner: MemSpawner::new(alloc, 0, Vec::new(alloc), Vec::new(alloc), Vec::new(alloc)),
            keepers: Keepers::empty(alloc),
        }
    }

    // Makes the form of the word, in place of the one that was.
    fn make(&mut self, alloc: Global, word: &str, options: &str) -> Result<()> {
        match word {
            "source" => put(&mut self.source, source(alloc, options)),
            "sink" => put(&mut self.sink, sink(alloc, options)),
            "clock" => put(&mut self.clock, clock(options)),
            "spawner" => put(&mut self.spawner, spawner(alloc, options)),
            _ => put(&mut self.keepers, Keepers::new(alloc, options)),
        }
    }

    // The calls of a source, a sink and a clock, and what a sink and a spawner have got.
    fn call(&mut self, alloc: Global, word: &str, rest: &str, answer: &mut String) -> Result<()> {
        match word {
            "read" => read(alloc, &mut self.source, rest, answer),
            "write" => write(alloc, &mut self.sink, rest, answer),
            "written" => answer_bytes(alloc, self.sink.bytes(), answer),
            "asked" => answer_asked(self.spawner.asked(), answer),
            _ => Ok(writeln!(answer, "{}", self.clock.now())?),
        }
    }
}

/// The forms that a case has made, and before that ones of nothing.
#[derive(Drop)]
pub struct MemoryCases<'a, R: Wait> {
    alloc: Global,
    rt: &'a R,
    forms: Forms,
}

impl<'a, R: Wait> MemoryCases<'a, R> {
    pub fn new(alloc: Global, rt: &'a R) -> MemoryCases<'a, R> {
        MemoryCases {
            alloc,
            rt,
            forms: Forms::new(alloc),
        }
    }
}

impl<R: Wait> Subject for MemoryCases<'_, R> {
    fn begin(&mut self) -> Result<()> {
        put(&mut self.forms, Ok(Forms::new(self.alloc)))
    }

    fn answer(&mut self, question: &str, answer: &mut String) -> Result<()> {
        let (word, rest) = first_word(question);
        let (alloc, forms) = (self.alloc, &mut self.forms);
        match word {
            "source" | "sink" | "clock" | "spawner" | "keeper" => forms.make(alloc, word, rest),
            "read" | "write" | "written" | "asked" | "now" => {
                forms.call(alloc, word, rest, answer)
            }
            "open" | "close" | "apply" | "load" | "store_faults" | "keeper_faults" => {
                forms.keepers.ask(alloc, question, answer)
            }
            _ => ask_spawner(self.rt, alloc, &mut forms.spawner, question, answer),
        }
    }
}
