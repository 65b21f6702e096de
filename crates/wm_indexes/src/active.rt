// The active jobs.
use crate::acting::Acting;
use crate::kills::{count_of, first_of};
use crate::moments::{least_above, turn_of};
use crate::rows::{lacking, put_row, take_row, whole};
use crate::turn::Turn;
use std::alloc::Global;
use std::marker::Model;
use wm_base::{Moment, NoMemory, Serial};
use wm_ordered::Ordered;

/// The active jobs by serial, each with what of its wish acts. `spare` is for how many more there is room.
#[derive(Drop)]
pub struct ActiveJobs {
    jobs: Ordered<Serial, Acting>,
    // The moments of those that have one, in the order in which they come.
    moments: Ordered<Turn, ()>,
    // The kills that are yet to be handed, each with its monitor.
    kills: Ordered<Serial, u32>,
    // How many jobs there may be, and so how many moments and how many kills.
    most: u32,
}

impl Model for ActiveJobs {
    ghost use Rattle.std.specs.Prelude.{ℕ};
    ghost use Rattle.wm_ordered.specs.Ordered.{Pairs};
    ghost use Rattle.wm_indexes.specs.declared.acting.Acting.{Acting};

    ghost Value = { Pairs ℕ Acting };

    ghost use Rattle.wm_indexes.specs.ActiveInside.{active_of, IsActiveInside};

    ghost view = { active_of };

    ghost invariant = { IsActiveInside };
}

impl ActiveJobs {
    ghost use Rattle.std.specs.Prelude.{◌≡◌, ◌+◌, ◌≤◌, [], length, false, nat_eq, option_map, OnOk};
    ghost use Rattle.std.specs.Ordering.{nat_cmp};
    ghost use Rattle.wm_desc.specs.Sorted.{IsSortedOnce, has_key, added, removed};
    ghost use Rattle.wm_ordered.specs.Ordered.{key_of, first_from, with_value};
    ghost use Rattle.wm_indexes.specs.Active.{first_kill, kills, next_above};

    /// No jobs; there is no room.
    pub fn new(alloc: Global) -> ActiveJobs
        ensures items { result.items ≡ [] }
        ensures spare { result.spare ≡ 0 }
    {
        ActiveJobs {
            jobs: Ordered::new(alloc),
            moments: Ordered::new(alloc),
            kills: Ordered::new(alloc),
            most: 0,
        }
    }

    /// Makes room for a number of jobs. An `Err` is want of memory, or of numbers for so many.
    pub fn reserve(&mut self, more: u32) -> Result<(), NoMemory>
        ensures ok { OnOk result (more ≤ self.new.spare) }
        ensures items { self.new.items ≡ self.old.items }
        ensures spare { self.old.spare ≤ self.new.spare }
    {
        let most = whole(self.jobs.len(), more)?;
        if most <= self.most {
            return Ok(());
        }
        self.jobs.reserve(more)?;
        self.moments.reserve(lacking(most, self.moments.len()))?;
        self.kills.reserve(lacking(most, self.kills.len()))?;
        self.most = most;
        Ok(())
    }

    /// How many there are.
    pub fn len(&self) -> usize
        ensures len { result ≡ length self.now.items }
        ensures sorted { IsSortedOnce key_of nat_cmp self.now.items }
    {
        self.jobs.len()
    }

    /// Puts in a job that isn't there. It takes no memory.
    pub fn insert(&mut self, serial: Serial, acting: Acting)
        requires spare { 1 ≤ self.old.spare }
        requires new { has_key key_of nat_eq serial self.old.items ≡ false }
        ensures items { self.new.items ≡ added key_of nat_cmp (serial, acting) self.old.items }
        ensures spare { self.old.spare ≡ self.new.spare + 1 }
    {
        // `len` tells that keys ascend.
        self.moments.len();
        self.kills.len();
        let turn = turn_of(serial, &acting);
        put_row(&mut self.moments, acting.until.is_some(), turn, ());
        let monitor = acting.kill.unwrap_or(0);
        put_row(&mut self.kills, acting.kill.is_some(), serial, monitor);
        self.jobs.insert(serial, acting);
    }

    /// Takes out a job, where it is there. Its room is spare again. It takes no memory.
    pub fn remove(&mut self, serial: Serial)
        ensures items { self.new.items ≡ removed key_of nat_eq serial self.old.items }
        ensures spare { self.old.spare ≤ self.new.spare }
        ensures nodes { length self.new.items + self.new.spare ≡ length self.old.items + self.old.spare }
    {
        // `len` tells that serials ascend.
        self.jobs.len();
        let Some(was) = self.jobs.remove(&serial) else {
            return;
        };
        let turn = turn_of(serial, &was);
        take_row(&mut self.moments, was.until.is_some(), &turn);
        take_row(&mut self.kills, was.kill.is_some(), &serial);
    }

    /// Gives a job that is there another acting part of its wish. It takes no memory.
    pub fn set(&mut self, serial: Serial, acting: Acting)
        ensures items { self.new.items ≡ with_value nat_eq serial acting self.old.items }
        ensures spare { self.new.spare ≡ self.old.spare }
    {
        // `len` tells that keys ascend.
        self.jobs.len();
        let Some(was) = self.jobs.set(&serial, acting) else {
            return;
        };
        let before = turn_of(serial, &was);
        take_row(&mut self.moments, was.until.is_some(), &before);
        take_row(&mut self.kills, was.kill.is_some(), &serial);
        self.moments.len();
        self.kills.len();
        let turn = turn_of(serial, &acting);
        put_row(&mut self.moments, acting.until.is_some(), turn, ());
        let monitor = acting.kill.unwrap_or(0);
        put_row(&mut self.kills, acting.kill.is_some(), serial, monitor);
    }

    /// The least serial that isn't below a serial.
    pub fn first_from(&self, serial: Serial) -> Option<Serial>
        ensures { result ≡ option_map key_of (first_from nat_cmp serial self.now.items) }
    {
        let Some(row) = self.jobs.first_from(&serial) else {
            return None;
        };
        Some(row.0)
    }

    /// The least moment of a wish above a clock. It is one look.
    pub fn next_above(&self, clock: Moment) -> Option<Moment>
        ensures { result ≡ next_above clock self.now.items }
    {
        least_above(&self.moments, clock)
    }

    /// The job of least serial whose kill a monitor is to be handed.
    pub fn first_kill(&self, monitor: u32) -> Option<Serial>
        ensures { result ≡ first_kill monitor self.now.items }
    {
        // `len` tells that serials ascend.
        self.jobs.len();
        self.kills.len();
        first_of(&self.kills, monitor)
    }

    /// How many kills a monitor is to be handed.
    pub fn kills(&self, monitor: u32) -> usize
        ensures { result ≡ kills monitor self.now.items }
    {
        // `len` tells that serials ascend.
        self.jobs.len();
        self.kills.len();
        count_of(&self.kills, monitor)
    }
}
