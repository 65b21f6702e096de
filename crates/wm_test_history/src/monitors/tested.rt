// What the cases ask:
//
// > open                 opens the floor of the case over a keeper in memory; `open fail 4` over one whose fourth `apply` fails, of
//                        which the first is that of the opening
// > at 2000              the moment of the calls from here on, which is 1000 first
// > spawner 1 starts 1 kills 1 2     the spawner of monitor 1 whose first start and first two kills fail; with `lag 0` its children
//                        end by themselves from the next look on
// > turn 1               a turn of monitor 1: how many entries it made, behind how many entries it looked last what waits, and then
//                        how many orders it had, how many jobs were busy, and the next moment; or its fault
// > wait 2               the same of a wait of monitor 2
// > asked 1              what the spawner of monitor 1 was asked
// > log                  the history; `log 5` from its fifth entry on
// > TEXT                 the command of this CL text, which QUSER calls: the place of its entry; `times 300 TEXT` 300 times: of the
//                        last one
use super::site::{Site, Which};
use super::told::{write_called, write_log, write_turned};
use crate::calls::{NOW, SESSION};
use crate::commands::text_call;
use crate::opened::NO_FLOOR;
use crate::replies::write_asked;
use crate::watch::LAG;
use crate::words::{first_word, moment_of, numbers};
use anyhow::{Context, Result, bail};
use std::alloc::Global;
use std::sync::Wait;
use wm_base::{Moment, Name};
use wm_cases::Subject;
use wm_outside::{MemKeeper, MemSpawner};

/// The open floor of a case.
pub struct Tested<'r, R> {
    rt: &'r R,
    alloc: Global,
    now: Moment,
    site: Option<Site>,
}

fn which_of(word: &str) -> Result<Which> {
    match word {
        "1" => Ok(Which::First),
        "2" => Ok(Which::Second),
        _ => bail!("no monitor: {word}"),
    }
}

fn spawner_of(alloc: Global, words: &str) -> Result<MemSpawner> {
    let lags = numbers(alloc, words, "lag")?;
    let lag = lags.first().copied().unwrap_or(LAG);
    let starts = numbers(alloc, words, "starts")?;
    let kills = numbers(alloc, words, "kills")?;
    let looks = numbers(alloc, words, "looks")?;
    Ok(MemSpawner::new(alloc, lag, starts, kills, looks))
}

impl<'r, R: Wait> Tested<'r, R> {
    pub fn new(rt: &'r R, alloc: Global) -> Tested<'r, R> {
        Tested {
            rt,
            alloc,
            now: Moment::new(NOW),
            site: None,
        }
    }

    /// Closes what is open.
    pub fn end(self) {
        let Tested {
            rt: _,
            alloc: _,
            now: _,
            site,
        } = self;
        match site {
            None => {}
            Some(site) => site.close(),
        }
    }

    fn close(&mut self) {
        match self.site.take() {
            None => {}
            Some(site) => site.close(),
        }
    }

    fn open(&mut self, words: &str) -> Result<()> {
        let fail = numbers(self.alloc, words, "fail")?;
        let keeper = MemKeeper::new(Vec::new(self.alloc), fail);
        let site = Site::open(self.alloc, keeper)?;
        match self.site.replace(site) {
            None => {}
            Some(site) => site.close(),
        }
        Ok(())
    }

    fn set(&mut self, moment: &str) -> Result<()> {
        self.now = moment_of(moment)?;
        Ok(())
    }

    fn equip(&mut self, words: &str) -> Result<()> {
        let (monitor, words) = first_word(words);
        let which = which_of(monitor)?;
        let spawner = spawner_of(self.alloc, words)?;
        let site = self.site.as_mut().context(NO_FLOOR)?;
        site.equip(which, spawner);
        Ok(())
    }

    fn call(&mut self, text: &str, answer: &mut String) -> Result<()> {
        let now = self.now;
        let site = self.site.as_mut().context(NO_FLOOR)?;
        let call = text_call(self.alloc, &Name::of(b"QUSER"), text)?;
        let called = site.floor.call(self.rt, self.alloc, SESSION, call, now)?;
        write_called(called, answer)
    }

    fn call_times(&mut self, words: &str, answer: &mut String) -> Result<()> {
        let (times, text) = first_word(words);
        for _ in 0..times.parse::<u32>()? {
            answer.clear();
            self.call(text, answer)?;
        }
        Ok(())
    }

    fn turn(&mut self, monitor: &str, answer: &mut String) -> Result<()> {
        let which = which_of(monitor)?;
        let now = self.now;
        let site = self.site.as_mut().context(NO_FLOOR)?;
        write_turned(site.turn(self.rt, self.alloc, which, now)?, answer)
    }

    fn wait(&mut self, monitor: &str, answer: &mut String) -> Result<()> {
        let which = which_of(monitor)?;
        let now = self.now;
        let site = self.site.as_mut().context(NO_FLOOR)?;
        write_turned(site.wait(self.rt, self.alloc, which, now)?, answer)
    }

    fn asked(&self, monitor: &str, answer: &mut String) -> Result<()> {
        let which = which_of(monitor)?;
        let site = self.site.as_ref().context(NO_FLOOR)?;
        write_asked(site.asked(which), answer)
    }

    fn log(&mut self, words: &str, answer: &mut String) -> Result<()> {
        let first = words.parse::<usize>().unwrap_or(1);
        let site = self.site.as_mut().context(NO_FLOOR)?;
        let log = site.floor.log(self.rt, self.alloc)?;
        write_log(self.alloc, &log, first, answer)
    }
}

impl<R: Wait> Subject for Tested<'_, R> {
    fn begin(&mut self) -> Result<()> {
        self.now = Moment::new(NOW);
        self.close();
        Ok(())
    }

    fn answer(&mut self, question: &str, answer: &mut String) -> Result<()> {
        let (word, words) = first_word(question);
        match word {
            "open" => self.open(words),
            "spawner" => self.equip(words),
            "turn" => self.turn(words, answer),
            "wait" => self.wait(words, answer),
            "asked" => self.asked(words, answer),
            "log" => self.log(words, answer),
            "times" => self.call_times(words, answer),
            "at" => self.set(words),
            _ => self.call(question, answer),
        }
    }
}
