// An operator's thread: it submits, holds, releases, ends and lists its own jobs.
ghost use Rattle.wm_floor.specs.Floor.{IsPassOf, IsSame};

use crate::call::call_of;
use crate::draw::Draw;
use crate::record::{Called, Looked, Record, line_of};
use anyhow::{Context, Result};
use std::alloc::{AllocError, Global};
use std::sync::Wait;
use wm_base::{Moment, Name};
use wm_floor::{Answered, Floor, FloorPass};
use wm_law::{Ask, Call, Entry};
use wm_listing::listing;
use wm_traits::Keeper;

/// What an operator draws and records.
#[derive(Drop)]
pub struct Operator {
    alloc: Global,
    draw: Draw,
    // How many jobs it has submitted.
    jobs: u32,
    record: Record,
}

// The user of the commands of a pass.
fn user_of(alloc: Global, number: u32) -> Result<Name> {
    let name = format!(in alloc; "U{number}")?;
    Name::read(name.as_bytes()).context("a name")
}

impl Operator {
    /// The operator with a pass of this number.
    pub fn new(alloc: Global, number: u32, seed: u64) -> Result<Operator> {
        let user = user_of(alloc, number)?;
        Ok(Operator {
            alloc,
            draw: Draw::new(seed.wrapping_add(u64::from(number))),
            jobs: 0,
            record: Record::new(alloc, number, user),
        })
    }

    /// What it recorded.
    pub fn into_record(self) -> Record {
        let Operator {
            alloc: _,
            draw: _,
            jobs: _,
            record,
        } = self;
        record
    }

    // The moments go back and forth, which the machine takes.
    fn moment(&mut self) -> Moment {
        Moment::new(1000 + u64::from(self.draw.below(50)))
    }

    // A command that submits one more job.
    fn submit(&mut self) -> Result<String, AllocError> {
        let (number, job) = (self.record.number, self.jobs);
        self.jobs = job.saturating_add(1);
        let more = match self.draw.below(4) {
            0 => " HOLD(*YES)",
            1 => " JOBD(QGPL/D)",
            2 => " JOBD(QGPL/D) JOBPTY(1)",
            _ => "",
        };
        format!(in self.alloc;
            "SBMJOB CMD(CALL PGM(QGPL/P) PARM({job})) JOB(J{number}N{job}){more}"
        )
    }

    // A command on one of its jobs.
    fn change(&mut self, verb: &str) -> Result<String, AllocError> {
        let number = self.record.number;
        let job = self.draw.below(self.jobs.max(1));
        format!(in self.alloc; "{verb} JOB(J{number}N{job})")
    }

    // Its next command, or none where it lists its jobs.
    fn next(&mut self) -> Result<Option<String>, AllocError> {
        let words = match self.draw.below(10) {
            0 => self.change("HLDJOB")?,
            1 | 2 => self.change("RLSJOB")?,
            3 => self.change("ENDJOB OPTION(*IMMED)")?,
            4 => return Ok(None),
            _ => self.submit()?,
        };
        Ok(Some(words))
    }

    // Records what a call was answered.
    fn note(&mut self, answered: Answered, words: &str, call: Call, moment: Moment) -> Result<()> {
        let Answered { place, reply } = answered;
        let entry = Entry {
            caller: self.record.number,
            call,
            moment,
            reply,
        };
        let called = Called {
            place,
            words: String::from_str(self.alloc, words)?,
            moment,
            line: line_of(self.alloc, place, &entry)?,
        };
        self.record.calls.push(called)?;
        Ok(())
    }

    /// Makes the call of these words.
    pub fn call<K: Keeper, R: Wait>(
        &mut self,
        rt: &R,
        floor: &Floor<K>,
        pass: &mut FloorPass<K>,
        words: &str,
    ) -> Result<()>
        requires own { IsPassOf floor.now pass.old }
        ensures own { IsPassOf floor.now pass.new }
        ensures same { IsSame pass.old pass.new }
    {
        let moment = self.moment();
        let user = self.record.user;
        let call = call_of(self.alloc, &user, words)?;
        let again = call_of(self.alloc, &user, words)?;
        let answered = floor.call(rt, self.alloc, pass, call, moment)?;
        self.note(answered, words, again, moment)
    }

    // Lists its jobs.
    fn list<K: Keeper, R: Wait>(
        &mut self,
        rt: &R,
        floor: &Floor<K>,
        pass: &mut FloorPass<K>,
    ) -> Result<()>
        requires own { IsPassOf floor.now pass.old }
        ensures own { IsPassOf floor.now pass.new }
        ensures same { IsSame pass.old pass.new }
    {
        let ask = Ask::Submitted(self.record.user);
        let view = floor.read(rt, self.alloc, pass, &ask)?;
        let shown = listing(self.alloc, &view.shown)?;
        self.record.looks.push(Looked { at: view.at, shown })?;
        Ok(())
    }

    /// One act.
    pub fn act<K: Keeper, R: Wait>(
        &mut self,
        rt: &R,
        floor: &Floor<K>,
        pass: &mut FloorPass<K>,
    ) -> Result<()>
        requires own { IsPassOf floor.now pass.old }
        ensures own { IsPassOf floor.now pass.new }
        ensures same { IsSame pass.old pass.new }
    {
        match self.next()? {
            Some(words) => self.call(rt, floor, pass, words.as_str()),
            None => self.list(rt, floor, pass),
        }
    }

    /// Submits a held job, and records nothing.
    pub fn submit_held<K: Keeper, R: Wait>(
        &self,
        rt: &R,
        floor: &Floor<K>,
        pass: &mut FloorPass<K>,
    ) -> Result<()>
        requires own { IsPassOf floor.now pass.old }
        ensures own { IsPassOf floor.now pass.new }
        ensures same { IsSame pass.old pass.new }
    {
        let words = "SBMJOB CMD(CALL PGM(QGPL/P)) JOB(HELD) HOLD(*YES)";
        let call = call_of(self.alloc, &self.record.user, words)?;
        drop(floor.call(rt, self.alloc, pass, call, Moment::new(1000))?);
        Ok(())
    }
}
