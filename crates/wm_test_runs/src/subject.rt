// The questions, and the run that they are about. `run` runs over a store of the given rows, `again` over the one that the run
// before has left; `left` shows how many bytes of the input a run has left; `rows 11` shows the rows of a table of it; `no words`
// and `no lines` take back what was given of these. `drill` drills with the given words; `text 7 5` shows the text of a seed and a number of jobs.
use crate::given::{Failing, Given, unknown};
use crate::rows::{store_of, write_table};
use crate::shown::{push_asked, push_entry};
use crate::told::Telling;
use anyhow::{Context, Result};
use std::alloc::Global;
use std::mem;
use std::sync::Wait;
use wm_base::Moment;
use wm_cases::Subject;
use wm_outside::{MemClock, MemSink, MemSource, MemSpawner, MemStore};
use wm_run::{Ran, run};
use wm_runs::{drill, drill_text};
use wm_traits::{Source, Spawner, Store};

// How many bytes an input has left. A read that fails takes none.
fn count_left<I: Source>(input: &mut I, buf: &mut [u8]) -> usize {
    let mut left = 0usize;
    for _ in 0..u64::MAX {
        match input.read(buf) {
            Ok(0) => return left,
            Ok(n) => left = left.saturating_add(n),
            Err(_) => {}
        }
    }
    left
}

fn left_of<I: Source>(alloc: Global, input: &mut I) -> Result<usize> {
    let mut buf = vec![in alloc; 0u8; 4096]?;
    Ok(count_left(input, &mut buf))
}

/// What a run did, and what the next one is given.
#[derive(Drop)]
pub struct Runs<'a, W: Wait> {
    rt: &'a W,
    alloc: Global,
    given: Given,
    // The store of the last run.
    store: MemStore,
    status: u8,
    // How many bytes of its input it has left.
    left: usize,
    written: Vec<u8>,
    log: String,
    asked: String,
}

impl<'a, W: Wait> Runs<'a, W> {
    /// No run yet, and nothing given.
    pub fn new(rt: &'a W, alloc: Global) -> Result<Runs<'a, W>> {
        Ok(Runs {
            rt,
            alloc,
            given: Given::new(alloc)?,
            store: store_of(Vec::new(alloc), Vec::new(alloc))?,
            status: 0,
            left: 0,
            written: Vec::new(alloc),
            log: String::new(alloc),
            asked: String::new(alloc),
        })
    }

    // Runs with this spawner. What is left of it stays with the caller.
    fn run_with<P: Spawner>(&mut self, spawner: &mut P) -> Result<()> {
        let given = &self.given;
        let most = given.most.max(1);
        let mut source = MemSource::in_pieces(
            given.input.clone()?,
            given.fails(self.alloc, Failing::Read)?,
            most,
        );
        let fails = given.fails(self.alloc, Failing::Write)?;
        let mut sink = MemSink::in_pieces(self.alloc, fails, most);
        let mut clock = MemClock::new(Moment::new(given.first.min(Moment::MAX)), given.step);
        let ran = run(
            self.rt,
            self.alloc,
            &given.words,
            &mut source,
            &mut sink,
            &mut self.store,
            spawner,
            &mut clock,
        );
        self.left = left_of(self.alloc, &mut source)?;
        self.keep(&ran, sink.bytes())
    }

    fn keep(&mut self, ran: &Ran, written: &[u8]) -> Result<()> {
        self.status = ran.status;
        self.written = written.to_vec(self.alloc)?;
        self.log.clear();
        for at in 0..ran.log.len() {
            let entry = ran.log.entry(at).context("no entry")?;
            push_entry(&mut self.log, entry)?;
        }
        Ok(())
    }

    // Runs with the spawner in memory, and shows what it was asked.
    fn run_in_memory(&mut self) -> Result<()> {
        let given = &self.given;
        let mut spawner = MemSpawner::new(
            self.alloc,
            given.lag,
            given.fails(self.alloc, Failing::Start)?,
            given.fails(self.alloc, Failing::Kill)?,
            given.fails(self.alloc, Failing::Look)?,
        );
        let ran = self.run_over(&mut spawner);
        drop(spawner);
        ran
    }

    fn run_over(&mut self, spawner: &mut MemSpawner) -> Result<()> {
        self.run_with(spawner)?;
        self.asked.clear();
        for asked in spawner.asked() {
            push_asked(&mut self.asked, asked)?;
        }
        Ok(())
    }

    fn run(&mut self) -> Result<()> {
        if self.given.tells.is_empty() {
            return self.run_in_memory();
        }
        let mut spawner = Telling::new(self.alloc, &self.given.tells)?;
        let ran = self.run_with(&mut spawner);
        drop(spawner);
        ran
    }

    // A store of the given rows. Its keeper is out where the opening is to fail.
    fn new_store(&mut self) -> Result<()> {
        let given = &self.given;
        let rows = given.rows.to_vec(self.alloc)?;
        let store = store_of(rows, given.fails(self.alloc, Failing::Apply)?)?;
        drop(mem::replace(&mut self.store, store));
        if !given.fails(self.alloc, Failing::Open)?.is_empty() {
            self.store.open("")?;
        }
        Ok(())
    }

    fn run_and_tell(&mut self, answer: &mut String) -> Result<()> {
        self.run()?;
        writeln!(answer, "status {}", self.status)?;
        Ok(())
    }

    // Drills, and tells the status.
    fn drill_and_tell(&mut self, answer: &mut String) -> Result<()> {
        let given = &self.given;
        let fails = given.fails(self.alloc, Failing::Write)?;
        let mut sink = MemSink::in_pieces(self.alloc, fails, given.most.max(1));
        let ran = drill(self.rt, self.alloc, &given.words, &mut sink);
        self.keep(&ran, sink.bytes())?;
        writeln!(answer, "status {}", self.status)?;
        Ok(())
    }

    fn show_text(&self, of: &str, answer: &mut String) -> Result<()> {
        let (seed, jobs) = of.split_once(' ').context("no number of jobs")?;
        let text = drill_text(self.alloc, seed.parse::<u64>()?, jobs.parse::<u32>()?)?;
        answer.push_str(String::from_utf8_lossy(self.alloc, &text)?.as_str())?;
        Ok(())
    }

    fn show_written(&self, answer: &mut String) -> Result<()> {
        let text = String::from_utf8_lossy(self.alloc, &self.written)?;
        answer.push_str(text.as_str())?;
        Ok(())
    }

    // Answers a question of one word.
    fn show(&mut self, question: &str, answer: &mut String) -> Result<()> {
        match question {
            "run" => {
                self.new_store()?;
                self.run_and_tell(answer)
            }
            "again" => self.run_and_tell(answer),
            "drill" => self.drill_and_tell(answer),
            "left" => Ok(writeln!(answer, "{} bytes", self.left)?),
            "written" => self.show_written(answer),
            "asked" => Ok(answer.push_str(self.asked.as_str())?),
            "log" => Ok(answer.push_str(self.log.as_str())?),
            _ => unknown(answer),
        }
    }
}

impl<'a, W: Wait> Subject for Runs<'a, W> {
    fn begin(&mut self) -> Result<()> {
        let given = Given::new(self.alloc)?;
        drop(mem::replace(&mut self.given, given));
        self.new_store()
    }

    fn answer(&mut self, question: &str, answer: &mut String) -> Result<()> {
        match question.split_once(' ') {
            None => self.show(question, answer),
            Some(("no", "words")) => {
                self.given.words.clear();
                Ok(())
            }
            Some(("no", "lines")) => {
                self.given.input.clear();
                Ok(())
            }
            Some(("text", of)) => self.show_text(of, answer),
            Some(("rows", tab)) => write_table(&mut self.store, tab, answer),
            Some((word, text)) => self.given.set(self.alloc, word, text, answer),
        }
    }
}
