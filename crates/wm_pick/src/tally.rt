// How many active jobs count against each limit.
use crate::Counted;
use crate::keys::Keys;
use crate::tally_rows::{lower_all, number, raise_all};
use std::alloc::Global;
use std::marker::Model;
use wm_base::{How, NoMemory};

/// How many hows name each key, of those that were started and have not ended. The hows themselves aren't kept: a contract
/// sees the counts, and says of which hows they are the tally. `spare` is for how many more starts there is room.
#[derive(Drop)]
pub struct Tally {
    rows: Vec<(Counted, u32)>,
}

impl Model for Tally {
    ghost use Rattle.wm_pick.specs.Tally.{Counts};

    ghost Value = { Counts };

    ghost use Rattle.wm_pick.specs.TallyInside.{counts_of, IsTallyInside};

    ghost view = { counts_of };

    ghost invariant = { IsTallyInside };
}

impl Tally {
    ghost use Rattle.std.specs.Prelude.{◌≡◌, ◌+◌, ◌≤◌, [], OnOk, OnErr};
    ghost use Rattle.wm_pick.specs.Tally.{IsTally, HasFew, HasStarted, AddsHow, TakesHow, count_of};

    /// The tally of no how.
    pub fn new(alloc: Global) -> Tally
        ensures hows { IsTally [] result }
        ensures spare { result.spare ≡ 0 }
    {
        Tally {
            rows: Vec::new(alloc),
        }
    }

    /// Makes room for a number of starts. An `Err` leaves all as it was.
    pub fn reserve(&mut self, more: u32) -> Result<(), NoMemory>
        ensures ok { OnOk result (more ≤ self.new.spare) }
        ensures counts { self.new.counts ≡ self.old.counts }
        ensures spare { self.old.spare ≤ self.new.spare }
        ensures err { OnErr result (self.new ≡ self.old) }
    {
        self.rows.reserve(more as usize * 4)?;
        Ok(())
    }

    /// Counts a how that starts. It takes no memory.
    pub fn start(&mut self, how: &How)
        requires spare { 1 ≤ self.old.spare }
        requires few { HasFew self.old }
        ensures hows { AddsHow self.old self.new how.now }
        ensures spare { self.old.spare ≤ self.new.spare + 1 }
    {
        let keys = Keys::of(how);
        raise_all(&mut self.rows, keys.as_slice());
    }

    /// Counts a how that was started no more. It takes no memory.
    pub fn end(&mut self, how: &How)
        requires { HasStarted self.old how.now }
        ensures hows { TakesHow self.old self.new how.now }
        ensures spare { self.old.spare ≤ self.new.spare }
    {
        let keys = Keys::of(how);
        lower_all(&mut self.rows, keys.as_slice());
    }

    /// How many hows name a key.
    pub fn count(&self, key: &Counted) -> u32
        ensures { result ≡ count_of key.now self.now }
    {
        number(self.rows.as_slice(), key)
    }
}
