// Runs of a script over files of which one stops, a call later in each run.
use super::disks::{Which, empty, files_of, has_stopped, outcomes};
use super::script::{Act, Step, changes, is_right};
use super::stores::{Store, begun, closed, made, opened};
use anyhow::{Result, bail};
use sqlite::Files;
use sqlite_disk::{Fuse, Memory};
use std::alloc::Global;
use std::fmt::Write;
use wm_cases::Subject;
use wm_outside::MemKeeper;
use wm_traits::{Keeper, Row};

/// More calls than any script makes of a file.
const MOST_CALLS: u64 = 100_000;

/// The number of the step in which a run was stopped, or none, and its files. The opening is step 0, and the close is the one
/// behind the last.
#[derive(Drop)]
struct Ran {
    stopped: Option<usize>,
    files: Files<Fuse<Memory>>,
}

// The end of a run by a close, which is this step.
fn ended(store: Store, number: usize) -> Ran {
    match store {
        Store::Open(keeper) => {
            let (files, is_closed) = closed(keeper);
            let stopped = if is_closed {
                None
            } else {
                Some(number.saturating_add(1))
            };
            Ran { stopped, files }
        }
        Store::Stopped(files) => Ran {
            stopped: Some(number),
            files,
        },
    }
}

// The store after the step, or as it is where a stop has ended it. The number is that of the last step that was begun.
fn next(
    alloc: Global,
    store: Store,
    frames: usize,
    step: &Step,
    number: &mut usize,
) -> Result<Store> {
    match store {
        Store::Open(keeper) => {
            *number = number.saturating_add(1);
            made(alloc, keeper, frames, step)
        }
        Store::Stopped(files) => Ok(Store::Stopped(files)),
    }
}

// The run of a script over new files, which ends with a close.
fn run(alloc: Global, steps: &[Step], files: Files<Fuse<Memory>>, frames: usize) -> Result<Ran> {
    let mut store = begun(alloc, files, frames, &[])?;
    let mut number = 0;
    for step in steps {
        store = next(alloc, store, frames, step, &mut number)?;
    }
    Ok(ended(store, number))
}

// The rows of a store that is opened again, or none where it can't be opened.
fn found(alloc: Global, log: &[u8], db: &[u8]) -> Result<Option<Vec<Row>>> {
    match opened(alloc, files_of(alloc, log, db)?, 1000) {
        Store::Open(mut keeper) => Ok(keeper.load().ok()),
        Store::Stopped(_) => Ok(None),
    }
}

fn answer_step(steps: &[Step], step: usize, answer: &mut String) -> Result<()> {
    if step == 0 {
        answer.push_str("opening\n")?;
    } else if step > steps.len() {
        answer.push_str("close\n")?;
    } else {
        writeln!(answer, "step {step}")?;
    }
    Ok(())
}

// Answers a line where the store can't be opened, or has other rows than those from before or after the step.
fn look_again(
    alloc: Global,
    steps: &[Step],
    step: usize,
    log: &[u8],
    db: &[u8],
    answer: &mut String,
) -> Result<()> {
    match found(alloc, log, db)? {
        Some(rows) if is_right(steps, step, &rows) => Ok(()),
        Some(_) => Ok(writeln!(answer, "other rows after a stop in step {step}")?),
        None => Ok(writeln!(answer, "not opened after a stop in step {step}")?),
    }
}

// Looks at all that a stop may leave.
fn look_at_all(
    alloc: Global,
    steps: &[Step],
    step: usize,
    files: Files<Fuse<Memory>>,
    answer: &mut String,
) -> Result<()> {
    let Files { log, db } = files;
    let logs = outcomes(alloc, log)?;
    let dbs = outcomes(alloc, db)?;
    for log in &logs {
        for db in &dbs {
            look_again(alloc, steps, step, log, db, answer)?;
        }
    }
    Ok(())
}

/// Which file stops, and how many frames the log has when it is copied into the database.
#[derive(Clone, Copy)]
struct Way {
    which: Which,
    frames: usize,
}

// Runs the script over files of which one answers so many calls. Answers the step of the stop, where the last stop was in
// another one, and what it leaves that it shouldn't. False is a file that has answered all calls of the run.
fn stop_at(
    alloc: Global,
    steps: &[Step],
    way: Way,
    calls: u64,
    last: &mut Option<usize>,
    answer: &mut String,
) -> Result<bool> {
    let mut ran = run(alloc, steps, empty(alloc, way.which, calls), way.frames)?;
    let is_stopped = has_stopped(&mut ran.files, way.which);
    let Ran { stopped, files } = ran;
    if let Some(step) = stopped
        && stopped != *last
    {
        answer_step(steps, step, answer)?;
        *last = stopped;
    }
    let step = stopped.unwrap_or(steps.len().saturating_add(1));
    look_at_all(alloc, steps, step, files, answer)?;
    Ok(is_stopped)
}

// Answers the steps in which there are stops, and what a stop leaves that it shouldn't.
fn stop_at_each(alloc: Global, steps: &[Step], way: Way, answer: &mut String) -> Result<()> {
    let mut last = None;
    for calls in 0..MOST_CALLS {
        if !stop_at(alloc, steps, way, calls, &mut last, answer)? {
            return Ok(());
        }
    }
    bail!("no run ends without a stop")
}

/// A script, and a keeper in memory, which has the rows after its last step.
#[derive(Drop)]
pub struct StopCases {
    alloc: Global,
    steps: Vec<Step>,
    kept: MemKeeper,
}

impl StopCases {
    pub fn new(alloc: Global) -> StopCases {
        StopCases {
            alloc,
            steps: Vec::new(alloc),
            kept: MemKeeper::new(Vec::new(alloc), Vec::new(alloc)),
        }
    }

    fn push(&mut self, act: Act) -> Result<()> {
        let rows = self.kept.load()?;
        self.steps.push(Step { act, rows })?;
        Ok(())
    }

    fn answer_rows(&mut self, answer: &mut String) -> Result<()> {
        for row in &self.kept.load()? {
            writeln!(answer, "{} {} = {}", row.tab, row.key, row.body)?;
        }
        Ok(())
    }

    fn apply(&mut self, words: &str, answer: &mut String) -> Result<()> {
        let changes = changes(self.alloc, words)?;
        self.kept.apply(&changes)?;
        self.answer_rows(answer)?;
        self.push(Act::Apply(changes))
    }

    fn stop(&self, words: &str, answer: &mut String) -> Result<()> {
        let (which, frames) = words.split_once(' ').unwrap_or((words, ""));
        let which = match which {
            "log" => Which::Log,
            "database" => Which::Database,
            _ => bail!("no such file: {which}"),
        };
        let frames = frames.parse::<usize>()?;
        stop_at_each(self.alloc, &self.steps, Way { which, frames }, answer)
    }
}

impl Subject for StopCases {
    fn begin(&mut self) -> Result<()> {
        *self = StopCases::new(self.alloc);
        Ok(())
    }

    // The steps: `apply put 1 A = x | del 1 A`, which answers the rows after it, `kill` and `close`. `stop log 1000` stops the
    // log, and `stop database 1000` the database, at each call of a run in which a log of 1,000 frames is copied.
    fn answer(&mut self, question: &str, answer: &mut String) -> Result<()> {
        let (word, rest) = question.split_once(' ').unwrap_or((question, ""));
        match word {
            "apply" => self.apply(rest, answer),
            "kill" => self.push(Act::Kill),
            "close" => self.push(Act::Close),
            "stop" => self.stop(rest, answer),
            _ => bail!("no such question: {question}"),
        }
    }
}
