// The value of the tests: a counter whose entries are kept in a list.
ghost use Rattle.std.specs.Prelude.{◌≡◌, ◌≤◌, []};
ghost use Rattle.wm_test_parts.specs.Notes.{noted_by};
ghost use Rattle.wm_turn.specs.Passed.{Grows};

use std::alloc::Global;
use wm_turn::Standing;

// The pass whose notes raise the mark.
const MARKING: u32 = 3;

/// One entry: the pass that made it, and how many there were before.
#[derive(Clone, Copy)]
pub struct Note {
    pub by: u32,
    pub place: u64,
}

/// The notes so far, and the mark, which each note of one pass raises.
#[derive(Drop)]
pub struct Counter {
    pub notes: Vec<Note>,
    pub marks: u64,
}

impl Standing for Counter {
    type Opening = u64;

    type Entry = Note;

    ghost opening = { λ _. 0 };

    ghost stands = { λ c. c.notes.items };

    ghost mark = { λ c. c.marks };

    ghost by = { λ n. n.by };

    ghost fact = { λ _ _. Unit {0} };

    fn entries(&self) -> u64 {
        self.notes.len() as u64
    }

    fn marked(&self) -> bool {
        self.marks != 0
    }

    ghost meets = { λ _. tt };

    ghost fronts = { λ _ _ _ _. tt };
}

impl Counter {
    pub fn new(alloc: Global) -> Counter
        ensures { (result.notes.items ≡ []) × (result.marks ≡ 0) }
    {
        Counter {
            notes: Vec::new(alloc),
            marks: 0,
        }
    }

    /// Adds a note of this pass, and says its place. Without memory nothing is added.
    pub fn add(&mut self, by: u32) -> Option<u64>
        ensures notes { Grows noted_by by self.old.notes.items self.new.notes.items }
        ensures marks { self.old.marks ≤ self.new.marks }
    {
        let place = self.notes.len() as u64;
        if self.notes.reserve(1).is_err() {
            return None;
        }
        self.notes.push_reserved(Note { by, place });
        if by == MARKING && self.marks < u64::MAX {
            self.marks += 1;
        }
        Some(place)
    }
}
