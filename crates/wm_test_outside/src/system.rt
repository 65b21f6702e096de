// The adapters of the real things.
use super::answers::{answer_bytes, answer_look};
use super::bells::{Ringer, ring, rings, storm};
use super::flaky::{Flaky, Full, SetBack, Stopped};
use super::spawners::ask_spawner;
use super::streams::{read, write};
use super::words::{BAR, first_word, unknown};
use anyhow::{Context, Result};
use std::alloc::Global;
use std::fmt::Write;
use std::process::{Processes, SystemProcess};
use std::rt;
use std::sync::Wait;
use std::time::Duration;
use wm_base::{Event, Moment};
use wm_cases::{Subject, bytes_of};
use wm_children::SysSpawner;
use wm_outside::{ReadSource, SysClock, WriteSink};
use wm_traits::{Clock, Failed, Spawner};

// A stream that is interrupted so often before each call.
fn flaky(interruptions: &str) -> Result<Flaky> {
    Ok(Flaky::new(interruptions.parse::<u32>()?))
}

// Reads of `flaky 3 | 2 | 2`, which is interrupted three times before each, and of `slice ab | 2 | 2`.
fn read_reader(alloc: Global, words: &str, answer: &mut String) -> Result<()> {
    let (reader, lengths) = words.split_once(BAR).context("no lengths")?;
    match first_word(reader) {
        ("flaky", times) => read_flaky(alloc, times, lengths, answer),
        ("slice", text) => read_slice(alloc, text, lengths, answer),
        _ => unknown(reader),
    }
}

fn read_flaky(alloc: Global, times: &str, lengths: &str, answer: &mut String) -> Result<()> {
    let mut source = ReadSource::new(flaky(times)?);
    read(alloc, &mut source, lengths, answer)
}

fn read_slice(alloc: Global, text: &str, lengths: &str, answer: &mut String) -> Result<()> {
    let bytes = bytes_of(alloc, text)?;
    let mut source = ReadSource::new(bytes.as_slice());
    read(alloc, &mut source, lengths, answer)
}

// Writes to `flaky 3 | ab | b`, to `full | a` and to `vector | ab`, whose bytes are answered too.
fn write_writer(alloc: Global, words: &str, answer: &mut String) -> Result<()> {
    let (writer, texts) = words.split_once(BAR).context("no texts")?;
    match first_word(writer) {
        ("flaky", times) => write_flaky(alloc, times, texts, answer),
        ("full", _) => write(alloc, &mut WriteSink::new(Full), texts, answer),
        ("vector", _) => write_vector(alloc, texts, answer),
        _ => unknown(writer),
    }
}

fn write_flaky(alloc: Global, times: &str, texts: &str, answer: &mut String) -> Result<()> {
    let mut sink = WriteSink::new(flaky(times)?);
    write(alloc, &mut sink, texts, answer)
}

fn write_vector(alloc: Global, texts: &str, answer: &mut String) -> Result<()> {
    let mut bytes: Vec<u8> = Vec::new(alloc);
    write(alloc, &mut WriteSink::new(&mut bytes), texts, answer)?;
    answer_bytes(alloc, &bytes, answer)
}

// The moments of a clock that is `back 1000 900`.
fn ask_set_back(words: &str, answer: &mut String) -> Result<()> {
    let (first, later) = first_word(words);
    let set_back = SetBack::new(first.parse::<u64>()?, later.parse::<u64>()?);
    let mut clock = SysClock::new(set_back);
    let (first, later) = (clock.now(), clock.now());
    writeln!(answer, "{first}\n{later}")?;
    Ok(())
}

fn answer_moment(moment: Moment, answer: &mut String) -> Result<()> {
    writeln!(answer, "{moment}")?;
    Ok(())
}

fn answer_past<C: rt::Clock>(real: &C, seconds: u64, answer: &mut String) -> Result<()> {
    let is_past = SysClock::new(real).now().get() > seconds;
    writeln!(answer, "{is_past}")?;
    Ok(())
}

// The moment of a clock `at 1000` and of one that is `unreadable`, and whether the real one is `past 1000`.
fn ask_clock<C: rt::Clock>(real: &C, words: &str, answer: &mut String) -> Result<()> {
    match first_word(words) {
        ("at", seconds) => {
            let stopped = Stopped(Some(seconds.parse::<u64>()?));
            answer_moment(SysClock::new(stopped).now(), answer)
        }
        ("back", seconds) => ask_set_back(seconds, answer),
        ("unreadable", _) => answer_moment(SysClock::new(Stopped(None)).now(), answer),
        ("past", seconds) => answer_past(real, seconds.parse::<u64>()?, answer),
        _ => unknown(words),
    }
}

// The pause between two looks, in milliseconds.
const PAUSE: u64 = 10;

// Looks up to so many times, with a pause between two, until there is a report.
fn look_often<C: rt::Clock, S: Spawner>(
    clock: &C,
    spawner: &mut S,
    most: u32,
) -> Result<Option<Event>, Failed> {
    for _ in 0..most {
        let found = spawner.ended()?;
        if found.is_some() {
            return Ok(found);
        }
        clock.sleep(Duration::from_millis(PAUSE));
    }
    Ok(None)
}

/// The adapters that a case asks. The spawner is one for all cases, since each waits for its children.
#[derive(Drop)]
pub struct SystemCases<'a, R: Processes<Started = SystemProcess> + Wait + rt::Clock> {
    alloc: Global,
    rt: &'a R,
    spawner: &'a mut SysSpawner<R>,
    ringer: &'a Ringer,
}

impl<'a, R: Processes<Started = SystemProcess> + Wait + rt::Clock> SystemCases<'a, R> {
    pub fn new(
        alloc: Global,
        rt: &'a R,
        spawner: &'a mut SysSpawner<R>,
        ringer: &'a Ringer,
    ) -> SystemCases<'a, R> {
        SystemCases {
            alloc,
            rt,
            spawner,
            ringer,
        }
    }
}

impl<R: Processes<Started = SystemProcess> + Wait + rt::Clock> Subject for SystemCases<'_, R> {
    fn begin(&mut self) -> Result<()> {
        Ok(())
    }

    fn answer(&mut self, question: &str, answer: &mut String) -> Result<()> {
        let (word, rest) = first_word(question);
        let alloc = self.alloc;
        match word {
            "read" => read_reader(alloc, rest, answer),
            "write" => write_writer(alloc, rest, answer),
            "clock" => ask_clock(self.rt, rest, answer),
            "ring" => ring(self.rt, &*self.spawner, rest, answer),
            "rings" => rings(self.rt, &mut *self.spawner, self.ringer, rest, answer),
            "storm" => storm(self.rt, &mut *self.spawner, self.ringer, rest, answer),
            "looks" => {
                let found = look_often(self.rt, &mut *self.spawner, rest.parse::<u32>()?);
                answer_look(found, answer)
            }
            _ => ask_spawner(self.rt, alloc, &mut *self.spawner, question, answer),
        }
    }
}
