// Histories, entry by entry.
ghost use Rattle.std.specs.Prelude.{◌≡◌, [], length, slice_get};
ghost use Rattle.std.specs.Option.{option_copied};

use crate::shared_list::SharedList;
use std::alloc::Global;
use std::marker::Model;
use wm_law::Entry;

/// The entries of a history, in order. They are shared with the floor and not copied. A contract sees their list.
#[derive(Drop)]
pub struct Log {
    entries: SharedList<Entry>,
}

impl Model for Log {
    ghost use Rattle.std.specs.Prelude.{List};
    ghost use Rattle.wm_law.specs.declared.call.Entry.{Entry};

    ghost Value = { List Entry };

    ghost view = { λ l. l.entries.items };
}

impl Log {
    /// No entries.
    pub fn none(alloc: Global) -> Log
        ensures { result ≡ [] }
    {
        Log::of(SharedList::new(alloc))
    }

    /// The entries of a list.
    pub(crate) fn of(entries: SharedList<Entry>) -> Log
        ensures { result ≡ entries.items }
    {
        Log { entries }
    }

    /// How many entries there are.
    pub fn len(&self) -> usize
        ensures { result ≡ length self.now }
    {
        self.entries.len()
    }

    /// The entry at a place, counted from 0.
    pub fn entry(&self, at: usize) -> Option<&Entry>
        ensures { option_copied result ≡ slice_get self.now at }
    {
        self.entries.get(at)
    }
}
