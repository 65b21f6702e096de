// Runs one after another over one store, by one call: what each is given, and what they did.
use crate::given::{Failing, Given};
use crate::shown::{push_asked, push_entry};
use anyhow::{Context, Result, ensure};
use std::alloc::Global;
use std::sync::Wait;
use wm_base::Moment;
use wm_outside::{MemClock, MemSink, MemSource, MemSpawner};
use wm_run::Ran;
use wm_runs::runs;
use wm_traits::Store;

/// What the runs to come are given, and what the last ones recorded, asked and wrote.
#[derive(Drop)]
pub struct Several<'a, W: Wait> {
    rt: &'a W,
    alloc: Global,
    given: Vec<Given>,
    logs: Vec<String>,
    pub asked: String,
    pub written: Vec<u8>,
}

fn log_of(alloc: Global, ran: &Ran) -> Result<String> {
    let mut log = String::new(alloc);
    for at in 0..ran.log.len() {
        let entry = ran.log.entry(at).context("no entry")?;
        push_entry(&mut log, entry)?;
    }
    Ok(log)
}

impl<'a, W: Wait> Several<'a, W> {
    /// No run yet, and none to come.
    pub fn new(rt: &'a W, alloc: Global) -> Several<'a, W> {
        Several {
            rt,
            alloc,
            given: Vec::new(alloc),
            logs: Vec::new(alloc),
            asked: String::new(alloc),
            written: Vec::new(alloc),
        }
    }

    /// One run to come, and no other.
    pub fn begin(&mut self) -> Result<()> {
        self.given.clear();
        self.next()
    }

    /// One run more to come.
    pub fn next(&mut self) -> Result<()> {
        self.given.push(Given::new(self.alloc)?)?;
        Ok(())
    }

    /// What is given to the first run.
    pub fn first(&self) -> Result<&Given> {
        self.given.first().context("no run")
    }

    /// Gives something to the last run.
    pub fn give(&mut self, word: &str, text: &str, answer: &mut String) -> Result<()> {
        let given = self.given.last_mut().context("no run")?;
        given.set(self.alloc, word, text, answer)
    }

    /// The history of the run of this number, from 1.
    pub fn log(&self, number: &str) -> Result<&str> {
        let number = number.parse::<usize>()?;
        let log = self
            .logs
            .get(number.saturating_sub(1))
            .context("no such run")?;
        Ok(log.as_str())
    }

    fn sources(&self) -> Result<Vec<MemSource>> {
        let mut sources = Vec::new(self.alloc);
        for given in self.given.iter() {
            let fails = given.fails(self.alloc, Failing::Read)?;
            let most = given.most.max(1);
            sources.push(MemSource::in_pieces(given.input.clone()?, fails, most))?;
        }
        Ok(sources)
    }

    fn spawners(&self) -> Result<Vec<MemSpawner>> {
        let mut spawners = Vec::new(self.alloc);
        for given in self.given.iter() {
            spawners.push(MemSpawner::new(
                self.alloc,
                given.lag,
                given.fails(self.alloc, Failing::Start)?,
                given.fails(self.alloc, Failing::Kill)?,
                given.fails(self.alloc, Failing::Look)?,
            ))?;
        }
        Ok(spawners)
    }

    fn keep_rans(&mut self, rans: &[Ran], answer: &mut String) -> Result<()> {
        self.logs.clear();
        for ran in rans {
            writeln!(answer, "status {}", ran.status)?;
            self.logs.push(log_of(self.alloc, ran)?)?;
        }
        Ok(())
    }

    fn keep_asked(&mut self, spawners: &[MemSpawner]) -> Result<()> {
        self.asked.clear();
        for spawner in spawners {
            for asked in spawner.asked() {
                push_asked(&mut self.asked, asked)?;
            }
        }
        Ok(())
    }

    /// Makes the runs over a store, and tells their statuses. Of the output, of the clock and of the words all have what was given to the first.
    pub fn run_all<S: Store>(&mut self, store: &mut S, answer: &mut String) -> Result<()> {
        let first = self.first()?;
        let fails = first.fails(self.alloc, Failing::Write)?;
        let mut sink = MemSink::in_pieces(self.alloc, fails, first.most.max(1));
        let mut clock = MemClock::new(Moment::new(first.first.min(Moment::MAX)), first.step);
        let mut sources = self.sources()?;
        let mut spawners = self.spawners()?;
        ensure!(sources.len() == spawners.len(), "a spawner for each input");
        let rans = runs(
            self.rt,
            self.alloc,
            &first.words,
            &mut sources,
            &mut sink,
            store,
            &mut spawners,
            &mut clock,
        )?;
        self.keep_rans(&rans, answer)?;
        self.keep_asked(&spawners)?;
        self.written = sink.bytes().to_vec(self.alloc)?;
        self.begin()
    }
}
