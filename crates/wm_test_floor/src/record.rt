// What the threads of a round recorded, beside its history.
use anyhow::Result;
use std::alloc::Global;
use wm_base::{Moment, Name};
use wm_floor::Log;
use wm_law::Entry;
use wm_listing::push_entry;

/// A call that was answered: its place, its words and its moment, and the line of the entry that was made of it.
#[derive(Drop)]
pub struct Called {
    pub place: u32,
    pub words: String,
    pub moment: Moment,
    pub line: Vec<u8>,
}

/// A look at the jobs of a thread's user: after so many entries these bytes were shown.
#[derive(Drop)]
pub struct Looked {
    pub at: u32,
    pub shown: Vec<u8>,
}

/// What a monitor was answered: how many entries it made, and what its spawner was asked, in lines.
#[derive(Drop)]
pub struct Watched {
    pub sent: u64,
    pub asked: Vec<u8>,
}

/// What one thread recorded: its pass and its user, its calls and its looks in the order in which it made them, and, of a
/// monitor, what it was answered.
#[derive(Drop)]
pub struct Record {
    pub number: u32,
    pub user: Name,
    pub calls: Vec<Called>,
    pub looks: Vec<Looked>,
    pub watched: Option<Watched>,
}

impl Record {
    pub fn new(alloc: Global, number: u32, user: Name) -> Record {
        Record {
            number,
            user,
            calls: Vec::new(alloc),
            looks: Vec::new(alloc),
            watched: None,
        }
    }
}

/// A round's history, and what each of its threads recorded.
#[derive(Drop)]
pub struct Round {
    pub log: Log,
    pub records: Vec<Record>,
}

/// The line of an entry at a place.
pub fn line_of(alloc: Global, place: u32, entry: &Entry) -> Result<Vec<u8>> {
    let mut line = Vec::new(alloc);
    push_entry(alloc, &mut line, place as usize, entry)?;
    Ok(line)
}
