// What a thread of a round does with its pass.
ghost use Rattle.wm_floor.specs.Floor.{IsPassOf, IsSame};

use crate::operator::Operator;
use crate::record::Record;
use crate::watcher::Watcher;
use anyhow::Result;
use std::alloc::Global;
use std::sync::Wait;
use wm_base::Name;
use wm_floor::{Floor, FloorPass};
use wm_traits::Keeper;

static OPENING: [&str; 5] = [
    "CRTPGMREF PGM(QGPL/P) PATH('/bin/p')",
    "CRTJOBQ JOBQ(QGPL/SLOW)",
    "CRTJOBD JOBD(QGPL/D) JOBQ(QGPL/SLOW)",
    "ADDJOBQE SBSD(QGPL/QBATCH) JOBQ(QGPL/SLOW) MAXACT(2) SEQNBR(50)",
    "STRSBS SBSD(QGPL/QBATCH)",
];

/// What a thread is.
#[derive(Clone, Copy)]
pub enum Role {
    Operator,
    Monitor,
    /// It only submits held jobs, and records nothing.
    Submitter,
}

/// What a round is like: so many threads of a role beside so many monitors, each with so many acts, drawn from a seed.
#[derive(Clone, Copy)]
pub struct Plan {
    pub threads: u32,
    pub role: Role,
    pub monitors: u32,
    pub acts: u32,
    pub seed: u64,
}

impl Plan {
    // What the thread of this number is, counted down. The last ones are the monitors.
    fn role_of(&self, thread: u32) -> Role {
        if thread <= self.monitors {
            Role::Monitor
        } else {
            self.role
        }
    }
}

fn operate<K: Keeper, R: Wait>(
    rt: &R,
    alloc: Global,
    floor: &Floor<K>,
    pass: &mut FloorPass<K>,
    acts: u32,
    seed: u64,
) -> Result<Record>
    requires own { IsPassOf floor.now pass.old }
    ensures own { IsPassOf floor.now pass.new }
{
    let mut operator = Operator::new(alloc, pass.number(), seed)?;
    for _ in 0..acts {
        operator.act(rt, floor, pass)?;
    }
    Ok(operator.into_record())
}

fn attend<K: Keeper, R: Wait>(
    rt: &R,
    alloc: Global,
    floor: &Floor<K>,
    pass: &mut FloorPass<K>,
    turns: u32,
    seed: u64,
) -> Result<Record>
    requires own { IsPassOf floor.now pass.old }
    ensures own { IsPassOf floor.now pass.new }
{
    let number = pass.number();
    let mut watcher = Watcher::new(alloc, (seed % 4) as u32);
    for _ in 0..turns {
        watcher.turn(rt, alloc, floor, pass)?;
    }
    let mut record = Record::new(alloc, number, Name::of(b"MONITOR"));
    record.watched = Some(watcher.watched(alloc)?);
    Ok(record)
}

/// Submits so many held jobs.
pub fn submit_held<K: Keeper, R: Wait>(
    rt: &R,
    alloc: Global,
    floor: &Floor<K>,
    pass: &mut FloorPass<K>,
    count: u32,
) -> Result<Record>
    requires own { IsPassOf floor.now pass.old }
    ensures own { IsPassOf floor.now pass.new }
    ensures same { IsSame pass.old pass.new }
{
    let operator = Operator::new(alloc, pass.number(), 0)?;
    for _ in 0..count {
        operator.submit_held(rt, floor, pass)?;
    }
    Ok(operator.into_record())
}

/// What a thread has: its pass, its number, counted down, and what the round is like.
pub struct Post<K: Keeper> {
    pub alloc: Global,
    pub pass: FloorPass<K>,
    pub thread: u32,
    pub plan: Plan,
}

impl<K: Keeper> Post<K> {
    /// Makes the acts of the thread, and records what was answered.
    pub fn work<R: Wait>(&mut self, rt: &R, floor: &Floor<K>) -> Result<Record>
        requires own { IsPassOf floor.now self.old.pass }
        ensures own { IsPassOf floor.now self.new.pass }
    {
        let (alloc, acts, seed) = (self.alloc, self.plan.acts, self.plan.seed);
        match self.plan.role_of(self.thread) {
            Role::Operator => operate(rt, alloc, floor, &mut self.pass, acts, seed),
            Role::Monitor => attend(rt, alloc, floor, &mut self.pass, acts, seed),
            Role::Submitter => submit_held(rt, alloc, floor, &mut self.pass, acts),
        }
    }
}

/// Makes the commands with which a round begins.
pub fn begin<K: Keeper, R: Wait>(
    rt: &R,
    alloc: Global,
    floor: &Floor<K>,
    pass: &mut FloorPass<K>,
) -> Result<Record>
    requires own { IsPassOf floor.now pass.old }
    ensures own { IsPassOf floor.now pass.new }
    ensures same { IsSame pass.old pass.new }
{
    let mut operator = Operator::new(alloc, pass.number(), 0)?;
    for words in &OPENING {
        operator.call(rt, floor, pass, words)?;
    }
    Ok(operator.into_record())
}
