// The jobs that wait.
use crate::bringing::bring_due;
use crate::indexes::{enlist, lacking, put_line, row_from, take_out};
use crate::keys::{Rise, Spot};
use crate::moving::{move_line, relist};
use crate::turning::{list_all, take_all};
use crate::{Ordered, Slots, Waiter};
use std::alloc::{AllocError, Global};
use std::marker::Model;
use wm_base::{Moment, NoMemory, Priority, QName, Serial};

/// The jobs that wait. A contract sees them in the order of their serials, with `clock`, the greatest moment that was made
/// due, and `spare`, for how many more jobs there is room. Each serial and each place stands there once.
#[derive(Drop)]
pub struct WaitingJobs {
    all: Slots<Waiter>,
    // Those that aren't held and are due by the clock.
    pub(crate) turns: Ordered<Spot, Serial>,
    // Those that are due above the clock, held or not.
    early: Ordered<Rise, ()>,
    // All of them.
    pub(crate) lines: Ordered<Spot, Serial>,
    clock: Moment,
    // For how many more jobs each of the four maps has room.
    room: u32,
}

impl Model for WaitingJobs {
    ghost use Rattle.wm_ordered.specs.Waiting.{Waiting};

    ghost Value = { Waiting };

    ghost use Rattle.wm_ordered.specs.WaitingInside.{waiting_of, IsWaitingInside};

    ghost view = { waiting_of };

    ghost invariant = { IsWaitingInside };
}

impl WaitingJobs {
    ghost use Rattle.std.specs.Prelude.{◌≡◌, ◌+◌, ◌≤◌, [], false, nat_eq, max, min, length, is_some, if◌then◌else◌, OnOk, OnErr};
    ghost use Rattle.std.specs.Ordering.{nat_cmp};
    ghost use Rattle.wm_desc.specs.Sorted.{IsSortedOnce, with_key, has_key, added, removed};
    ghost use Rattle.wm_ordered.specs.Waiting.{serial_of, has_place, HavePlaces, HavePriorities, HasOwnPlace, first_on, next_due, replaced};

    /// None waits, and the clock is 0.
    pub fn new(alloc: Global) -> WaitingJobs
        ensures items { result.items ≡ [] }
        ensures clock { result.clock ≡ 0 }
        ensures spare { result.spare ≡ 0 }
    {
        WaitingJobs {
            all: Slots::new(alloc),
            turns: Ordered::new(alloc),
            early: Ordered::new(alloc),
            lines: Ordered::new(alloc),
            clock: Moment::new(0),
            room: 0,
        }
    }

    /// How many wait.
    pub fn len(&self) -> usize
        ensures len { result ≡ length self.now.items }
        ensures sorted { IsSortedOnce serial_of nat_cmp self.now.items }
        ensures places { HavePlaces self.now.items }
        ensures priorities { HavePriorities self.now.items }
    {
        self.all.len()
    }

    /// Makes room for a number of jobs. An `Err` is want of memory, or of numbers for so many jobs; it leaves all as it was.
    pub fn reserve(&mut self, more: u32) -> Result<(), NoMemory>
        ensures ok { OnOk result (more ≤ self.new.spare) }
        ensures items { self.new.items ≡ self.old.items }
        ensures clock { self.new.clock ≡ self.old.clock }
        ensures spare { self.old.spare ≤ self.new.spare }
        ensures err { OnErr result (self.new ≡ self.old) }
    {
        if more <= self.room {
            return Ok(());
        }
        let Some(whole) = more.checked_add(self.all.len() as u32) else {
            return Err(AllocError);
        };
        self.turns.reserve(lacking(whole, self.turns.len()))?;
        self.early.reserve(lacking(whole, self.early.len()))?;
        self.lines.reserve(lacking(whole, self.lines.len()))?;
        self.all.reserve(more)?;
        self.room = more;
        Ok(())
    }

    /// Puts in a job, for which there is room, and whose serial and place are new. It takes no memory.
    pub fn insert(&mut self, waiter: Waiter)
        requires spare { 1 ≤ self.old.spare }
        requires serial { has_key serial_of nat_eq waiter.serial self.old.items ≡ false }
        requires place { has_place waiter.place self.old.items ≡ false }
        ensures items { self.new.items ≡ added serial_of nat_cmp waiter self.old.items }
        ensures clock { self.new.clock ≡ self.old.clock }
        ensures spare { self.old.spare ≡ self.new.spare + 1 }
    {
        // `len` tells that keys differ, so no index has more rows than there are jobs; `get` tells the range.
        self.turns.len();
        self.early.len();
        self.lines.len();
        waiter.pty.get();
        enlist(&mut self.turns, &mut self.early, self.clock, &waiter);
        put_line(&mut self.lines, &waiter);
        self.all.insert(waiter.serial, waiter);
        self.room -= 1;
    }

    /// Takes out the job of a serial, whose room is spare again. It takes no memory.
    pub fn remove(&mut self, serial: Serial) -> Option<Waiter>
        ensures waiter { result ≡ with_key serial_of nat_eq serial self.old.items }
        ensures items { self.new.items ≡ removed serial_of nat_eq serial self.old.items }
        ensures clock { self.new.clock ≡ self.old.clock }
        ensures spare { self.new.spare ≡ self.old.spare + (if is_some result then 1 else 0) }
    {
        // `len` tells that serials differ.
        self.all.len();
        let Some(waiter) = self.all.remove(serial) else {
            return None;
        };
        take_out(&mut self.turns, &Spot::of(&waiter));
        take_out(&mut self.early, &Rise::of(&waiter));
        take_out(&mut self.lines, &Spot::of(&waiter));
        self.room += 1;
        Some(waiter)
    }

    /// Puts a job in the place of the one with its serial, where there is one; where it stands on its queue is as that one
    /// did, or new. It takes no memory.
    pub fn replace(&mut self, waiter: Waiter)
        requires place { HasOwnPlace waiter self.old.items }
        ensures items { self.new.items ≡ replaced waiter self.old.items }
        ensures clock { self.new.clock ≡ self.old.clock }
        ensures spare { self.new.spare ≡ self.old.spare }
    {
        // `len` tells that serials and places differ; `get` tells the range.
        self.len();
        waiter.pty.get();
        let Some(old) = self.all.set(waiter.serial, waiter) else {
            return;
        };
        relist(&mut self.turns, &mut self.early, self.clock, &old, &waiter);
        move_line(&mut self.lines, &old, &waiter);
    }

    /// Makes due what is due at a moment, where the clock isn't past it. It takes no memory, and goes through those alone
    /// that become due.
    pub fn make_due(&mut self, now: Moment)
        ensures items { self.new.items ≡ self.old.items }
        ensures clock { self.new.clock ≡ max self.old.clock now }
        ensures spare { self.new.spare ≡ self.old.spare }
    {
        if now <= self.clock {
            return;
        }
        bring_due(&self.all, &mut self.turns, &mut self.early, now);
        self.clock = now;
    }

    // The job of a serial.
    pub(crate) fn waiter(&self, serial: Serial) -> Option<Waiter>
        ensures { result ≡ with_key serial_of nat_eq serial self.now.items }
    {
        self.all.get(serial)
    }

    /// The first of the jobs on a queue, held and early ones too: by priority, then by place.
    pub fn first_on(&self, jobq: &QName) -> Option<Waiter>
        ensures { result ≡ first_on jobq.now self.now.items }
    {
        // `len` tells that spots ascend, and that serials and places differ.
        self.len();
        self.lines.len();
        let begin = Spot {
            jobq: *jobq,
            pty: Priority::new(1),
            place: 0,
        };
        let Some((spot, serial)) = row_from(&self.lines, &begin) else {
            return None;
        };
        if spot.is_on(jobq) {
            self.waiter(serial)
        } else {
            None
        }
    }

    /// The greatest moment that was made due.
    pub fn clock(&self) -> Moment
        ensures { result ≡ self.now.clock }
    {
        self.clock
    }

    /// The least moment above the clock at which a job is due, held or not.
    pub fn next_due(&self) -> Option<Moment>
        ensures { result ≡ next_due self.now.clock self.now.items }
    {
        // `len` tells that moments ascend.
        self.early.len();
        let Some(row) = self.early.first() else {
            return None;
        };
        Some(row.0.due)
    }

    /// Turns the clock back to a moment, where it is past it. It takes no memory, and goes through all jobs.
    pub fn turn_back(&mut self, moment: Moment)
        ensures items { self.new.items ≡ self.old.items }
        ensures clock { self.new.clock ≡ min self.old.clock moment }
        ensures spare { self.new.spare ≡ self.old.spare }
    {
        if self.clock <= moment {
            return;
        }
        take_all(&mut self.turns);
        take_all(&mut self.early);
        list_all(&self.all, &mut self.turns, &mut self.early, moment);
        self.clock = moment;
    }
}
