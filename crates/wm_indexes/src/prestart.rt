// The active prestart jobs.
use crate::numbers::{join, number, part};
use crate::prestart_job::{PrestartEntry, PrestartJob};
use crate::rows::{lacking, put_row, take_row, whole};
use crate::seat::Seat;
use crate::seats::seat_of;
use std::alloc::Global;
use std::marker::Model;
use wm_base::{NoMemory, Serial};
use wm_ordered::Ordered;

/// The active prestart jobs by serial, each with its entry, its number and whether it can take a request. `spare` is for how many more
/// there is room.
#[derive(Drop)]
pub struct PrestartJobs {
    jobs: Ordered<Serial, PrestartJob>,
    // The idle ones, by entry, then number.
    seats: Ordered<Seat, ()>,
    // How many of an entry are available.
    numbers: Ordered<PrestartEntry, u32>,
    // How many jobs there may be, and so how many seats and how many entries with jobs.
    most: u32,
}

impl Model for PrestartJobs {
    ghost use Rattle.std.specs.Prelude.{ℕ};
    ghost use Rattle.wm_ordered.specs.Ordered.{Pairs};
    ghost use Rattle.wm_indexes.specs.declared.prestart_job.PrestartJob.{PrestartJob};

    ghost Value = { Pairs ℕ PrestartJob };

    ghost use Rattle.wm_indexes.specs.PrestartInside.{prestart_of, IsPrestartInside};

    ghost view = { prestart_of };

    ghost invariant = { IsPrestartInside };
}

impl PrestartJobs {
    ghost use Rattle.std.specs.Prelude.{◌≡◌, ◌+◌, ◌≤◌, [], length, false, nat_eq, OnOk};
    ghost use Rattle.std.specs.Ordering.{nat_cmp};
    ghost use Rattle.wm_desc.specs.Sorted.{IsSortedOnce, has_key, added, removed};
    ghost use Rattle.wm_ordered.specs.Ordered.{key_of, with_value};
    ghost use Rattle.wm_indexes.specs.Ready.{available, first_idle};

    /// No jobs; there is no room.
    pub fn new(alloc: Global) -> PrestartJobs
        ensures items { result.items ≡ [] }
        ensures spare { result.spare ≡ 0 }
    {
        PrestartJobs {
            jobs: Ordered::new(alloc),
            seats: Ordered::new(alloc),
            numbers: Ordered::new(alloc),
            most: 0,
        }
    }

    /// Makes room for a number of jobs. An `Err` is want of memory, or of numbers for so many.
    pub fn reserve(&mut self, more: u32) -> Result<(), NoMemory>
        ensures ok { OnOk result (more ≤ self.new.spare) }
        ensures items { self.new.items ≡ self.old.items }
        ensures spare { self.old.spare ≤ self.new.spare }
    {
        let most = whole(self.jobs.len(), more)?;
        if most <= self.most {
            return Ok(());
        }
        self.jobs.reserve(more)?;
        self.seats.reserve(lacking(most, self.seats.len()))?;
        self.numbers.reserve(lacking(most, self.numbers.len()))?;
        self.most = most;
        Ok(())
    }

    /// How many there are.
    pub fn len(&self) -> usize
        ensures len { result ≡ length self.now.items }
        ensures sorted { IsSortedOnce key_of nat_cmp self.now.items }
    {
        self.jobs.len()
    }

    /// Puts in a job that isn't there. It takes no memory.
    pub fn insert(&mut self, serial: Serial, job: PrestartJob)
        requires spare { 1 ≤ self.old.spare }
        requires new { has_key key_of nat_eq serial self.old.items ≡ false }
        ensures items { self.new.items ≡ added key_of nat_cmp (serial, job) self.old.items }
        ensures spare { self.old.spare ≡ self.new.spare + 1 }
    {
        // `len` tells that keys ascend.
        self.seats.len();
        self.numbers.len();
        let seat = seat_of(serial, &job);
        put_row(&mut self.seats, job.readiness.is_idle(), seat, ());
        join(&mut self.numbers, &job);
        self.jobs.insert(serial, job);
    }

    /// Takes out a job, where it is there. Its room is spare again. It takes no memory.
    pub fn remove(&mut self, serial: Serial)
        ensures items { self.new.items ≡ removed key_of nat_eq serial self.old.items }
        ensures spare { self.old.spare ≤ self.new.spare }
        ensures nodes { length self.new.items + self.new.spare ≡ length self.old.items + self.old.spare }
    {
        // `len` tells that serials ascend.
        self.jobs.len();
        let Some(was) = self.jobs.remove(&serial) else {
            return;
        };
        let seat = seat_of(serial, &was);
        take_row(&mut self.seats, was.readiness.is_idle(), &seat);
        part(&mut self.numbers, &was);
    }

    /// Puts another job in the place of one that is there. It takes no memory.
    pub fn set(&mut self, serial: Serial, job: PrestartJob)
        ensures items { self.new.items ≡ with_value nat_eq serial job self.old.items }
        ensures spare { self.new.spare ≡ self.old.spare }
    {
        // `len` tells that keys ascend.
        self.jobs.len();
        let Some(was) = self.jobs.set(&serial, job) else {
            return;
        };
        let before = seat_of(serial, &was);
        take_row(&mut self.seats, was.readiness.is_idle(), &before);
        part(&mut self.numbers, &was);
        self.seats.len();
        self.numbers.len();
        let seat = seat_of(serial, &job);
        put_row(&mut self.seats, job.readiness.is_idle(), seat, ());
        join(&mut self.numbers, &job);
    }

    /// How many jobs of an entry are available. It is one look.
    pub fn available(&self, entry: &PrestartEntry) -> u32
        ensures { result ≡ available entry.now self.now.items }
    {
        number(&self.numbers, entry)
    }

    /// The idle job of an entry that has the least number, and among those of one number the least serial. It is one look.
    pub fn first_idle(&self, entry: &PrestartEntry) -> Option<Serial>
        ensures { result ≡ first_idle entry.now self.now.items }
    {
        let begin = Seat {
            entry: *entry,
            number: 0,
            serial: Serial::new(0),
        };
        // `len` tells that keys ascend.
        self.jobs.len();
        self.seats.len();
        let Some(row) = self.seats.first_from(&begin) else {
            return None;
        };
        if row.0.entry != *entry {
            return None;
        }
        Some(row.0.serial)
    }
}
