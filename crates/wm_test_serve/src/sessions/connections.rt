// What the files ask:
//
// > limit N             the floors of the case take N entries
// > pieces N            a read gives at most N bytes
// > short N             a write takes at most N bytes
// > fail-apply N        the N-th call of the keeper that stores fails; 1 is that of the opening
// > fail-read N         the N-th read fails
// > fail-write N        the N-th write fails
// > serve BYTES         what is answered, how the connection ends, and how often `before` and `after` of its gate came
// > count LAST BYTES    the same, with the number of responses, and of the bytes the number and the last ones alone
// > read BYTES          the same as `serve`, and how many bytes were read
// > again N BYTES       N connections of these bytes over one floor: how often `after` of their gate came
//
// The first six hold for the rest of the case, and answer nothing. They don't count for `again`.
use super::again::serve_again;
use super::serving::{Plan, serve};
use super::shown::{show, show_count};
use anyhow::{Context, Result, bail, ensure};
use std::alloc::Global;
use std::sync::Wait;
use wm_cases::{Subject, bytes_of};

// What the settings of a case say.
#[derive(Clone, Copy)]
struct Settings {
    limit: u32,
    piece: usize,
    short: usize,
    fail_apply: Option<u32>,
    fail_read: Option<u32>,
    fail_write: Option<u32>,
}

const PLAIN: Settings = Settings {
    limit: 1_000_000,
    piece: 65536,
    short: 65536,
    fail_apply: None,
    fail_read: None,
    fail_write: None,
};

/// Connections, each over a floor of its own.
#[derive(Drop)]
pub struct Connections<'r, R> {
    rt: &'r R,
    alloc: Global,
    settings: Settings,
}

// The number of a call that fails, where there is one.
fn failing(alloc: Global, call: Option<u32>) -> Result<Vec<u32>> {
    let mut calls = Vec::new(alloc);
    if let Some(call) = call {
        calls.push(call)?;
    }
    Ok(calls)
}

impl<'r, R: Wait> Connections<'r, R> {
    pub fn new(rt: &'r R, alloc: Global) -> Connections<'r, R> {
        Connections {
            rt,
            alloc,
            settings: PLAIN,
        }
    }

    fn plan(&self) -> Result<Plan> {
        let Settings {
            limit,
            piece,
            short,
            fail_apply,
            fail_read,
            fail_write,
        } = self.settings;
        ensure!(limit >= 1 && limit <= 1_000_000, "no limit: {limit}");
        ensure!(piece > 0 && short > 0, "no piece");
        Ok(Plan {
            limit,
            piece,
            short,
            fail_apply: failing(self.alloc, fail_apply)?,
            fail_read: failing(self.alloc, fail_read)?,
            fail_write: failing(self.alloc, fail_write)?,
        })
    }

    fn serve(&self, text: &str, answer: &mut String) -> Result<()> {
        let plan = self.plan()?;
        let bytes = bytes_of(self.alloc, text)?;
        let came = serve(self.rt, self.alloc, plan, bytes)?;
        show(&came, answer)
    }

    fn count(&self, text: &str, answer: &mut String) -> Result<()> {
        let (last, text) = text.split_once(' ').context("no number of bytes")?;
        let last = last.parse::<usize>()?;
        let plan = self.plan()?;
        let bytes = bytes_of(self.alloc, text)?;
        let came = serve(self.rt, self.alloc, plan, bytes)?;
        show_count(&came, last, answer)
    }

    fn read(&self, text: &str, answer: &mut String) -> Result<()> {
        let plan = self.plan()?;
        let bytes = bytes_of(self.alloc, text)?;
        let came = serve(self.rt, self.alloc, plan, bytes)?;
        show(&came, answer)?;
        write!(answer, "{} bytes read\n", came.read)?;
        Ok(())
    }

    fn again(&self, text: &str, answer: &mut String) -> Result<()> {
        let (count, text) = text.split_once(' ').context("no number of connections")?;
        let count = count.parse::<u32>()?;
        let bytes = bytes_of(self.alloc, text)?;
        let after = serve_again(self.rt, self.alloc, count, &bytes)?;
        write!(answer, "{after} calls\n")?;
        Ok(())
    }

    fn set(&mut self, word: &str, number: u32) -> Result<()> {
        match word {
            "limit" => self.settings.limit = number,
            "pieces" => self.settings.piece = number as usize,
            "short" => self.settings.short = number as usize,
            "fail-apply" => self.settings.fail_apply = Some(number),
            "fail-read" => self.settings.fail_read = Some(number),
            "fail-write" => self.settings.fail_write = Some(number),
            _ => bail!("no question: {word}"),
        }
        Ok(())
    }
}

impl<R: Wait> Subject for Connections<'_, R> {
    fn begin(&mut self) -> Result<()> {
        self.settings = PLAIN;
        Ok(())
    }

    fn answer(&mut self, question: &str, answer: &mut String) -> Result<()> {
        let (asked, text) = question.split_once(' ').unwrap_or((question, ""));
        match asked {
            "serve" => self.serve(text, answer),
            "count" => self.count(text, answer),
            "read" => self.read(text, answer),
            "again" => self.again(text, answer),
            _ => self.set(asked, text.parse::<u32>()?),
        }
    }
}
