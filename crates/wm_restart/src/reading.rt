// What rows make, row by row.
use crate::job::{is_plausible, job_of, keeps_ranges, waits};
use crate::marks::mark;
use crate::replies::is_made;
use std::alloc::Global;
use std::marker::Model;
use wm_base::{NoMemory, QName};
use wm_desc::{Objects, SortedList};
use wm_law::{Command, Job, QNames, SbsList};
use wm_making::change_objects;
use wm_ordered::Ordered;
use wm_rows::{Counter, Stored, StoredJob, read_job, read_row};
use wm_traits::Row;
use wm_when::Offset;

/// All job numbers are below this.
const NUMBERS_END: u64 = 1_000_000;

/// All serials and places are below this.
const SERIALS_END: u64 = 1_000_000_000_000_000_000;

/// The table of jobs.
const JOBS: u8 = 11;

/// What rows make of a state. The next serial and place are at most 2^64; where no counter lacks, at most
/// 1,000,000,000,000,000,000.
#[derive(Drop)]
pub struct ReadParts {
    pub objects: Objects,
    pub held: QNames,
    pub jobs: Vec<Job>,
    pub next_number: u32,
    pub next_serial: u128,
    pub next_place: u128,
    pub offset: Offset,
}

/// What the rows that were read make. A contract sees it as the state.
#[derive(Drop)]
pub struct Reading {
    objects: Objects,
    held: QNames,
    jobs: Vec<Job>,
    // The numbers of the jobs.
    numbers: Ordered<u32, ()>,
    // The places of those that wait.
    places: Ordered<u64, ()>,
    next_number: u32,
    // These are above the serials and places of the jobs, which may be as great as a u64.
    next_serial: u128,
    next_place: u128,
    offset: Offset,
}

impl Model for Reading {
    ghost use Rattle.wm_law.specs.declared.state.State.{State};

    ghost Value = { State };

    ghost use Rattle.wm_restart.specs.ReadingInside.{state_of, IsReadingInside};

    ghost view = { state_of };

    ghost invariant = { IsReadingInside };
}

impl Reading {
    ghost use Rattle.std.specs.Prelude.{◌≡◌, ◌↔◌, true, false, IsTrue, IfOk, OnOk, codes, is_some};
    ghost use Rattle.wm_law.specs.Fit.{IsCommand, IsQName};
    ghost use Rattle.wm_law.specs.Machine.{change};
    ghost use Rattle.wm_law.specs.Opening.{empty};
    ghost use Rattle.wm_law.specs.Queues.{hold_queue};
    ghost use Rattle.wm_law.specs.declared.call.Reply.TheVariants.{Made, QueueHeld};
    ghost use Rattle.wm_law.specs.declared.state.State.{State};
    ghost use Rattle.wm_rows.specs.Places.{place_of};
    ghost use Rattle.wm_restart.specs.Parts.{parts_state};
    ghost use Rattle.wm_rows.specs.Stored.{IsPhase};
    ghost use Rattle.wm_restart.specs.Plausible.{IsApart, TakesNone};
    ghost use Rattle.wm_tables.specs.Restart.{IsGoodCount, IsGoodJob, Takes, with_counter, with_stored};

    /// No rows.
    pub(crate) fn new(alloc: Global, offset: Offset) -> Reading
        ensures { result ≡ empty offset }
    {
        Reading {
            objects: Objects::new(alloc),
            held: SortedList::new(alloc),
            jobs: Vec::new(alloc),
            numbers: Ordered::new(alloc),
            places: Ordered::new(alloc),
            next_number: 1,
            next_serial: 1,
            next_place: 1,
            offset,
        }
    }

    /// What was read, for the machine that is made of it.
    pub fn parts(self) -> ReadParts
        ensures { parts_state result ≡ self }
    {
        ReadParts {
            objects: self.objects,
            held: self.held,
            jobs: self.jobs,
            next_number: self.next_number,
            next_serial: self.next_serial,
            next_place: self.next_place,
            offset: self.offset,
        }
    }

    // Makes what a row's command makes, and answers whether the machine takes it.
    fn make(&mut self, alloc: Global, command: &Command) -> Result<bool, NoMemory>
        requires fit { IsCommand command.now }
        requires place { is_some (place_of command.now) ≡ true }
        ensures made { IfOk result (λ made. IsTrue made ↔ ((change self.old (codes "QSYS") command.now).reply ≡ Made)) }
        ensures state { IfOk result (λ made. IsTrue made → self.new ≡ (change self.old (codes "QSYS") command.now).state) }
        ensures left { IfOk result (λ made. made ≡ false → self.new ≡ self.old) }
    {
        // No subsystem is started as a run opens.
        let started = SbsList::new(alloc);
        let reply = change_objects(alloc, &mut self.objects, &started, command)?;
        Ok(is_made(&reply))
    }

    // Holds a queue, and answers whether the machine takes it.
    fn hold(&mut self, jobq: QName) -> Result<bool, NoMemory>
        ensures held { IfOk result (λ held. IsTrue held ↔ ((hold_queue self.old jobq).reply ≡ QueueHeld)) }
        ensures state { IfOk result (λ held. IsTrue held → self.new ≡ (hold_queue self.old jobq).state) }
        ensures left { IfOk result (λ held. held ≡ false → self.new ≡ self.old) }
    {
        if self.objects.jobqs.object(&jobq).is_none() || self.held.contains(&jobq) {
            return Ok(false);
        }
        self.held.insert(jobq)?;
        Ok(true)
    }

    // Whether a counter isn't below what the jobs have reached, and keeps its range.
    fn is_good_count(&self, counter: Counter, n: u64) -> bool
        ensures { IsTrue result ↔ IsGoodCount self.now counter n }
    {
        match counter {
            Counter::Number => u64::from(self.next_number) <= n && n <= NUMBERS_END,
            Counter::Place => self.next_place <= u128::from(n) && n <= SERIALS_END,
            Counter::Schema => n == 1,
            Counter::Serial => self.next_serial <= u128::from(n) && n <= SERIALS_END,
        }
    }

    // Sets a counter where it is good, and answers whether it is.
    fn count(&mut self, counter: Counter, n: u64) -> bool
        ensures good { IsTrue result ↔ IsGoodCount self.old counter n }
        ensures state { IsTrue result → self.new ≡ with_counter self.old counter n }
        ensures left { result ≡ false → self.new ≡ self.old }
    {
        if !self.is_good_count(counter, n) {
            return false;
        }
        match counter {
            Counter::Number => self.next_number = n as u32,
            Counter::Place => self.next_place = u128::from(n),
            Counter::Schema => {}
            Counter::Serial => self.next_serial = u128::from(n),
        }
        true
    }

    // Whether no job has the number of a job, and none waits at its place where it waits.
    fn is_apart(&self, job: &StoredJob) -> bool
        ensures { IsTrue result ↔ IsApart self.now job.now }
    {
        !self.numbers.contains(&job.number.get())
            && !(waits(job.phase) && self.places.contains(&job.place))
    }

    // Puts a good job behind the jobs.
    fn put(&mut self, alloc: Global, job: StoredJob) -> Result<(), NoMemory>
        requires { IsGoodJob self.old job }
        ensures { OnOk result (self.new ≡ with_stored self.old job) }
    {
        self.numbers.reserve(1)?;
        self.places.reserve(1)?;
        let number = job.number.get();
        let place = job.place;
        let serial = job.serial;
        let waiting = waits(job.phase);
        self.jobs.push(job_of(alloc, job)?)?;
        mark(&mut self.numbers, number, true);
        mark(&mut self.places, place, waiting);
        self.next_number = self.next_number.max(number + 1);
        self.next_serial = self.next_serial.max(u128::from(serial) + 1);
        self.next_place = self.next_place.max(u128::from(place) + 1);
        Ok(())
    }

    // Puts a job behind the jobs where it is good, and answers whether it is.
    fn enter(&mut self, alloc: Global, job: StoredJob) -> Result<bool, NoMemory>
        requires { IsPhase job.phase }
        ensures good { IfOk result (λ good. IsTrue good ↔ IsGoodJob self.old job) }
        ensures state { IfOk result (λ good. IsTrue good → self.new ≡ with_stored self.old job) }
        ensures left { IfOk result (λ good. good ≡ false → self.new ≡ self.old) }
    {
        keeps_ranges(&job);
        if !is_plausible(&self.objects, &job) || !self.is_apart(&job) {
            return Ok(false);
        }
        self.put(alloc, job)?;
        Ok(true)
    }

    // Takes the row of a job.
    fn take_job(&mut self, alloc: Global, row: &Row) -> Result<bool, NoMemory>
        requires { row.now.tab ≡ 11 }
        ensures yes { IfOk result (λ taken. IsTrue taken → Takes self.old row.now self.new) }
        ensures no { IfOk result (λ taken. taken ≡ false → TakesNone self.old row.now) }
        ensures left { IfOk result (λ taken. taken ≡ false → self.new ≡ self.old) }
    {
        match read_job(alloc, row)? {
            None => Ok(false),
            Some(job) => self.enter(alloc, job),
        }
    }

    // Takes a row that isn't that of a job.
    fn take_other(&mut self, alloc: Global, row: &Row) -> Result<bool, NoMemory>
        requires { row.now.tab ≡ 11 → ⊥ }
        ensures yes { IfOk result (λ taken. IsTrue taken → Takes self.old row.now self.new) }
        ensures no { IfOk result (λ taken. taken ≡ false → TakesNone self.old row.now) }
        ensures left { IfOk result (λ taken. taken ≡ false → self.new ≡ self.old) }
    {
        match read_row(alloc, row)? {
            None => Ok(false),
            Some(Stored::Made(command)) => self.make(alloc, &command),
            Some(Stored::Held(jobq)) => self.hold(jobq),
            Some(Stored::Counter(counter, n)) => Ok(self.count(counter, n)),
        }
    }

    /// Takes one row more, and answers whether it is good behind those before it. An `Err` is want of memory.
    pub(crate) fn take(&mut self, alloc: Global, row: &Row) -> Result<bool, NoMemory>
        ensures yes { IfOk result (λ taken. IsTrue taken → Takes self.old row.now self.new) }
        ensures no { IfOk result (λ taken. taken ≡ false → TakesNone self.old row.now) }
        ensures left { IfOk result (λ taken. taken ≡ false → self.new ≡ self.old) }
    {
        if row.tab == JOBS {
            self.take_job(alloc, row)
        } else {
            self.take_other(alloc, row)
        }
    }
}
