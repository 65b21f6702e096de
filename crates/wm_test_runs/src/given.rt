// What a run is given.
use crate::rows::row;
use anyhow::{Context, Result};
use std::alloc::{AllocError, Global};
use wm_cases::bytes_of;
use wm_traits::Row;

// Which call fails: the number, from 1, of a read, a write, an `apply`, a start, a kill or a look; or the opening of the store.
#[derive(Clone, Copy, PartialEq, Eq)]
pub enum Failing {
    Read,
    Write,
    Open,
    Apply,
    Start,
    Kill,
    Look,
}

impl Failing {
    fn of(word: &str) -> Option<Failing> {
        match word {
            "read" => Some(Failing::Read),
            "write" => Some(Failing::Write),
            "open" => Some(Failing::Open),
            "apply" => Some(Failing::Apply),
            "start" => Some(Failing::Start),
            "kill" => Some(Failing::Kill),
            "look" => Some(Failing::Look),
            _ => None,
        }
    }
}

fn push_word(alloc: Global, words: &mut Vec<String>, word: &str) -> Result<()> {
    words.push(String::from_str(alloc, word)?)?;
    Ok(())
}

/// The answer to a word that no case has.
pub fn unknown(answer: &mut String) -> Result<()> {
    answer.push_str("no such question\n")?;
    Ok(())
}

/// The words, the input, the rows, the calls that fail, and the numbers that the forms in memory are made with.
#[derive(Drop)]
pub struct Given {
    pub words: Vec<String>,
    pub input: Vec<u8>,
    pub failing: Vec<(Failing, u32)>,
    /// The rows that the store has.
    pub rows: Vec<Row>,
    /// How many looks a child is out before it has its report.
    pub lag: u32,
    /// How many bytes a read or a write takes at the most.
    pub most: usize,
    pub first: u64,
    pub step: u64,
    /// What a spawner of the test tells, look by look; empty for the spawner in memory.
    pub tells: Vec<String>,
}

impl Given {
    /// The word `run`, no input, no rows, children that end at once, a clock that stands at 1000, and nothing that fails.
    pub fn new(alloc: Global) -> Result<Given> {
        let mut words = Vec::new(alloc);
        push_word(alloc, &mut words, "run")?;
        Ok(Given {
            words,
            input: Vec::new(alloc),
            failing: Vec::new(alloc),
            rows: Vec::new(alloc),
            lag: 0,
            most: 4096,
            first: 1000,
            step: 0,
            tells: Vec::new(alloc),
        })
    }

    /// Sets what the word says by its text.
    pub fn set(
        &mut self,
        alloc: Global,
        word: &str,
        text: &str,
        answer: &mut String,
    ) -> Result<()> {
        match word {
            "words" => self.words(alloc, text),
            "line" => self.line(alloc, text),
            "bytes" => self.bytes(alloc, text),
            "fail" => self.fail(text),
            "row" => self.row(alloc, text),
            "lag" => self.lag(text),
            "pieces" => self.pieces(text),
            "clock" => self.clock(text),
            "look" => self.look(alloc, text),
            _ => unknown(answer),
        }
    }

    fn line(&mut self, alloc: Global, text: &str) -> Result<()> {
        self.bytes(alloc, text)?;
        self.input.push(b'\n')?;
        Ok(())
    }

    fn bytes(&mut self, alloc: Global, text: &str) -> Result<()> {
        let bytes = bytes_of(alloc, text)?;
        self.input.extend_from_slice(&bytes)?;
        Ok(())
    }

    fn row(&mut self, alloc: Global, text: &str) -> Result<()> {
        self.rows.push(row(alloc, text)?)?;
        Ok(())
    }

    fn lag(&mut self, text: &str) -> Result<()> {
        self.lag = text.parse::<u32>()?;
        Ok(())
    }

    fn pieces(&mut self, text: &str) -> Result<()> {
        self.most = text.parse::<usize>()?;
        Ok(())
    }

    fn look(&mut self, alloc: Global, text: &str) -> Result<()> {
        self.tells.push(String::from_str(alloc, text)?)?;
        Ok(())
    }

    // Sets the words, which are parted by blanks.
    fn words(&mut self, alloc: Global, text: &str) -> Result<()> {
        self.words.clear();
        for word in text.split_whitespace() {
            push_word(alloc, &mut self.words, word)?;
        }
        Ok(())
    }

    /// The numbers of the calls that fail.
    pub fn fails(&self, alloc: Global, failing: Failing) -> Result<Vec<u32>, AllocError> {
        let mut numbers = Vec::new(alloc);
        for (own, number) in self.failing.iter() {
            if *own == failing {
                numbers.push(*number)?;
            }
        }
        Ok(numbers)
    }

    // Sets `fail look 2`.
    fn fail(&mut self, text: &str) -> Result<()> {
        let (word, number) = text.split_once(' ').context("no number")?;
        let failing = Failing::of(word).context("no such call")?;
        self.failing.push((failing, number.parse::<u32>()?))?;
        Ok(())
    }

    // Sets `clock 1000 7`.
    fn clock(&mut self, text: &str) -> Result<()> {
        let (first, step) = text.split_once(' ').context("no step")?;
        self.first = first.parse::<u64>()?;
        self.step = step.parse::<u64>()?;
        Ok(())
    }
}
