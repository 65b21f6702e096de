// What reading commands show of a floor over a keeper in memory, which is open over no rows as a case begins. The four files ask:
//
// > TEXT                 the command of this CL text, which QUSER calls: what it shows, or its refusal
// > monitor 1 hand       a call of a monitor, by the words of `monitor_calls`: its refusal
// > split 2              splits off passes up to this number
// > set now 1020         the moment of the calls that follow
// > list restarted       the listing of a job that a restart has ended, which no call does
//
// A question that can't be asked is answered by its fault.
ghost use Rattle.wm_command.specs.Printed.{FitsMachine};
ghost use Rattle.wm_law.specs.Fit.{IsCall};
ghost use Rattle.wm_law.specs.declared.state.State.{State};

mod restarted;

use crate::calls::{NOW, OpenFloor, SESSION};
use crate::commands::{line_of, user_call};
use crate::monitor_calls::call_of;
use crate::opened::{NO_FLOOR, keeper_of, open, shut_down};
use crate::replies::write_lines;
use crate::words::{first_word, moment_of};
use anyhow::{Context, Result, bail};
use restarted::listed_restarted;
use std::alloc::Global;
use std::rt::Files;
use std::sync::Wait;
use wm_base::{Moment, Name};
use wm_cases::{Subject, play};
use wm_command::Line;
use wm_law::{Ask, Call, Reply};

/// The files of what is shown.
static FILES: [&str; 4] = ["jobs.txt", "log.txt", "queues.txt", "subsystems.txt"];

/// An open floor, and the moment of its calls.
pub struct Listed<'r, R> {
    rt: &'r R,
    alloc: Global,
    floor: Option<OpenFloor>,
    now: Moment,
}

// Adds the refusal of a call, where it is refused.
fn write_refusal(reply: &Reply, answer: &mut String) -> Result<()> {
    if let Reply::No(refusal) = reply {
        writeln!(answer, "NO {refusal}")?;
    }
    Ok(())
}

impl<'r, R: Wait> Listed<'r, R> {
    /// No floor, before the first case.
    pub fn new(rt: &'r R, alloc: Global) -> Listed<'r, R> {
        Listed {
            rt,
            alloc,
            floor: None,
            now: Moment::new(NOW),
        }
    }

    /// Closes what is open.
    pub fn end(self) {
        let Listed {
            rt: _,
            alloc: _,
            floor,
            now: _,
        } = self;
        shut_down(floor);
    }

    fn call(&mut self, caller: u32, made: Call, answer: &mut String) -> Result<()>
        requires fit { IsCall made }
    {
        let floor = self.floor.as_mut().context(NO_FLOOR)?;
        match floor.call(self.rt, self.alloc, caller, made, self.now)? {
            Ok(answered) => write_refusal(&answered.reply, answer),
            Err(fault) => bail!("{fault}"),
        }
    }

    fn show(&mut self, ask: &Ask, answer: &mut String) -> Result<()> {
        let floor = self.floor.as_mut().context(NO_FLOOR)?;
        let bytes = floor.listed(self.rt, self.alloc, ask)?;
        write_lines(&bytes, answer)
    }

    fn line(&mut self, user: &Name, line: Line, answer: &mut String) -> Result<()>
        requires { FitsMachine line }
    {
        match line {
            Line::Change(command) => {
                let made = user_call(self.alloc, user, command)?;
                self.call(SESSION, made, answer)
            }
            Line::Read(ask) => self.show(&ask, answer),
        }
    }

    fn command(&mut self, text: &str, answer: &mut String) -> Result<()> {
        let user = Name::of(b"QUSER");
        let line = line_of(self.alloc, &user, text)?;
        self.line(&user, line, answer)
    }

    fn monitor(&mut self, words: &str, answer: &mut String) -> Result<()> {
        let (monitor, words) = first_word(words);
        let monitor = monitor.parse::<u32>()?;
        let made = call_of(words)?;
        self.call(monitor, made, answer)
    }

    fn split(&mut self, last: &str) -> Result<()> {
        let last = last.parse::<u32>()?;
        let floor = self.floor.as_mut().context(NO_FLOOR)?;
        for _ in 0..last {
            if floor.split()? >= last {
                return Ok(());
            }
        }
        Ok(())
    }

    fn list_restarted(&self, answer: &mut String) -> Result<()> {
        let bytes = listed_restarted(self.alloc)?;
        write_lines(&bytes, answer)
    }

    fn set_now(&mut self, now: &str) -> Result<()> {
        self.now = moment_of(now)?;
        Ok(())
    }

    // Answers by the first words, which are a CL text where they are none of these.
    fn ask(&mut self, question: &str, answer: &mut String) -> Result<()> {
        if let Some(words) = question.strip_prefix("monitor ") {
            self.monitor(words, answer)
        } else if let Some(now) = question.strip_prefix("set now ") {
            self.set_now(now)
        } else if let Some(last) = question.strip_prefix("split ") {
            self.split(last)
        } else if question == "list restarted" {
            self.list_restarted(answer)
        } else {
            self.command(question, answer)
        }
    }
}

impl<R: Wait> Subject for Listed<'_, R> {
    fn begin(&mut self) -> Result<()> {
        let keeper = keeper_of(Vec::new(self.alloc), Vec::new(self.alloc))?;
        match open(self.alloc, keeper, "")? {
            Ok(floor) => shut_down(self.floor.replace(floor)),
            Err(_) => bail!("no floor over no rows"),
        }
        self.now = Moment::new(NOW);
        Ok(())
    }

    fn answer(&mut self, question: &str, answer: &mut String) -> Result<()> {
        if let Err(fault) = self.ask(question, answer) {
            writeln!(answer, "{fault}")?;
        }
        Ok(())
    }
}

fn play_all<R: AllocGlobal + Files + Print + Wait>(
    rt: &R,
    listed: &mut Listed<'_, R>,
) -> Result<()> {
    for file in &FILES {
        play(rt, file, listed)?;
    }
    Ok(())
}

/// Plays the cases of the files.
pub fn play_listed<R: AllocGlobal + Files + Print + Wait>(rt: &R) -> Result<()> {
    let mut listed = Listed::new(rt, rt.alloc());
    let played = play_all(rt, &mut listed);
    listed.end();
    played
}
