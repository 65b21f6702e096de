// What the threads of a round recorded, beside its history.
use super::counter::Note;
use std::alloc::{AllocError, Global};

/// What one thread recorded: its pass, and the places of its entries in the order in which it made them.
#[derive(Drop)]
pub struct Record {
    pub number: u32,
    pub places: Vec<u64>,
}

/// A round's history, and what each of its threads recorded.
#[derive(Drop)]
pub struct Round {
    pub notes: Vec<Note>,
    pub records: Vec<Record>,
}

// Whether the history has the notes of this record, at its places and no others.
fn is_recorded(notes: &[Note], record: &Record) -> bool {
    let mut next = 0;
    for note in notes {
        if note.by == record.number {
            if next >= record.places.len() || record.places[next] != note.place {
                return false;
            }
            next += 1;
        }
    }
    next == record.places.len()
}

// Whether each note has its own place.
fn is_placed(notes: &[Note]) -> bool {
    notes
        .iter()
        .enumerate()
        .all(|(place, note)| note.place == place as u64)
}

impl Round {
    /// How often a turn went to another thread than the one before.
    pub fn hand_overs(&self) -> u64 {
        let mut hands: u64 = 0;
        let mut last = 0;
        for note in self.notes.iter() {
            if note.by != last {
                hands = hands.saturating_add(1);
                last = note.by;
            }
        }
        hands
    }

    /// What is told of the round.
    pub fn told(&self, alloc: Global) -> Result<String, AllocError> {
        let count = self.notes.len();
        if !is_placed(self.notes.as_slice()) {
            return format!(in alloc; "a place of {count} entries is wrong");
        }
        for record in self.records.iter() {
            if !is_recorded(self.notes.as_slice(), record) {
                let number = record.number;
                return format!(in alloc; "the entries of pass {number} aren't what it recorded");
            }
        }
        let passes = self.records.len();
        format!(in alloc; "{count} entries, each as one of {passes} passes recorded it")
    }
}
