// The job table.
ghost use Rattle.std.specs.Prelude.{◌≤◌};

use crate::counts::{count_start, more, put_active, put_order, put_prestart, reserve_all};
use crate::phases::{counts_as_busy, is_active, waiter_of};
use crate::places::place;
use crate::touched::{Mark, Touched};
use std::alloc::{AllocError, Global};
use std::marker::Model;
use wm_base::{Moment, NoMemory, Serial};
use wm_indexes::{ActiveJobs, JobNames, PrestartJobs};
use wm_law::{Job, Launched, Phase};
use wm_ordered::{Ordered, WaitingJobs};
use wm_pick::Tally;

/// How many jobs a table takes at the most.
const MOST: usize = 0x3fff_ffff;

/// For how many jobs the lists take room at once. What isn't used of a large block costs no memory, while one that grows is
/// there twice until it has been copied.
const FIRST: usize = 4096;

// For how many more a list takes room that has so many and is to have room for some more.
fn room_for(more: u32, there: usize) -> u32
    ensures { more ≤ result }
{
    more.max(FIRST.saturating_sub(there) as u32)
}

/// The jobs of the machine, with what they are found and counted by. A contract sees the jobs in the order of their serials,
/// `clock`, the moment up to which waiting jobs are due, the serial and the place that the next job has, `spare`, for how many
/// more jobs there is room, `changes`, for how many changes of a job beside launches and ends of those that wait, `touched`,
/// what was noted since the mark, `undos`, how much of that can be taken back for certain, and `marked`, what it was at the
/// mark.
#[derive(Drop)]
pub struct JobTable {
    pub(crate) jobs: Vec<Job>,
    pub(crate) waiting: WaitingJobs,
    pub(crate) tally: Tally,
    // The Starting jobs.
    pub(crate) starting: Ordered<Serial, ()>,
    // Which of the jobs a command names.
    pub(crate) names: JobNames,
    // The active jobs, with what of their wishes acts.
    pub(crate) active: ActiveJobs,
    // Those of them that came by prestart entries, with whether they can take a request.
    pub(crate) prestart: PrestartJobs,
    // The active jobs that aren't prestart jobs.
    pub(crate) busy: usize,
    pub(crate) next_serial: u64,
    pub(crate) next_place: u64,
    // For how many more jobs each of these has room.
    pub(crate) room: u32,
    // What was touched since the mark, the newest last, and what the table was there.
    pub(crate) touched: Vec<Touched>,
    pub(crate) mark: Mark,
    // For how many changes of a job there is room in what was touched, beside launches and ends of those that wait.
    pub(crate) changes: u32,
    // How many of the changes that were noted there is room to take back.
    pub(crate) undos: u32,
}

impl Model for JobTable {
    ghost use Rattle.wm_jobs.specs.Table.{Table};

    ghost Value = { Table };

    ghost use Rattle.wm_jobs.specs.TableInside.{table_of, IsTableInside};

    ghost view = { table_of };

    ghost invariant = { IsTableInside };
}

impl JobTable {
    ghost use Rattle.std.specs.Prelude.{◌≡◌, ◌==◌, ◌&&◌, ◌+◌, ◌∷◌, ◌++◌, ◌^◌, ◌<◌, ◌≤◌, [], true, false, is_some, max, nat_le, find, map, Some, IfSome, OnOk, OnErr};
    ghost use Rattle.wm_law.specs.Laws.{IsIn};
    ghost use Rattle.std.specs.Option.{option_copied};
    ghost use Rattle.std.specs.Ordering.{nat_cmp};
    ghost use Rattle.wm_desc.specs.Sorted.{IsSortedOnce};
    ghost use Rattle.wm_law.specs.Counts.{is_waiting, is_starting, is_active};
    ghost use Rattle.wm_law.specs.Jobs.{changed_at};
    ghost use Rattle.wm_law.specs.Launch.{as_launched};
    ghost use Rattle.wm_law.specs.Reports.{phased_at};
    ghost use Rattle.wm_pick.specs.Tally.{IsTally};
    ghost use Rattle.wm_pick.specs.Parts.{waiters};
    ghost use Rattle.wm_pick.specs.Tallied.{hows};
    ghost use Rattle.wm_jobs.specs.Table.{serial_of, active_in, busy_in, starting_in, next_due_in, present, IsReady};

    /// No jobs; the clock is 0, and serials and places begin at 1.
    pub fn new(alloc: Global) -> JobTable
        ensures jobs { result.jobs ≡ [] }
        ensures clock { result.clock ≡ 0 }
        ensures next_serial { result.next_serial ≡ 1 }
        ensures next_place { result.next_place ≡ 1 }
        ensures spare { result.spare ≡ 0 }
        ensures marked { result.marked ≡ present result }
    {
        JobTable::empty(alloc, 1, 1)
    }

    // No jobs; the clock is 0, and serials and places go on from these.
    pub(crate) fn empty(alloc: Global, next_serial: u64, next_place: u64) -> JobTable
        requires { 1 ≤ next_place }
        ensures jobs { result.jobs ≡ [] }
        ensures clock { result.clock ≡ 0 }
        ensures next_serial { result.next_serial ≡ next_serial }
        ensures next_place { result.next_place ≡ next_place }
        ensures spare { result.spare ≡ 0 }
        ensures marked { result.marked ≡ present result }
    {
        JobTable {
            jobs: Vec::new(alloc),
            waiting: WaitingJobs::new(alloc),
            tally: Tally::new(alloc),
            starting: Ordered::new(alloc),
            names: JobNames::new(alloc),
            active: ActiveJobs::new(alloc),
            prestart: PrestartJobs::new(alloc),
            busy: 0,
            next_serial,
            next_place,
            room: 0,
            touched: Vec::new(alloc),
            mark: Mark {
                jobs: 0,
                clock: Moment::new(0),
                next_serial,
                next_place,
            },
            changes: 0,
            undos: 0,
        }
    }

    /// Makes room for a number of jobs and for two changes, and to take back all that is done from the mark on. An `Err` is
    /// want of memory, or comes where there would be more than 1,073,741,823 jobs, or notes; it leaves all as it was.
    pub fn reserve(&mut self, more: u32) -> Result<(), NoMemory>
        ensures ok { OnOk result (more ≤ self.new.spare) }
        ensures changes { OnOk result (2 ≤ self.new.changes) }
        ensures ready { OnOk result (IsReady self.new) }
        ensures marked { self.new.marked ≡ self.old.marked }
        ensures jobs { self.new.jobs ≡ self.old.jobs }
        ensures clock { self.new.clock ≡ self.old.clock }
        ensures next_serial { self.new.next_serial ≡ self.old.next_serial }
        ensures next_place { self.new.next_place ≡ self.old.next_place }
        ensures spare { self.old.spare ≤ self.new.spare }
        ensures err { OnErr result (self.new ≡ self.old) }
    {
        self.make_room(more, 2)
    }

    /// Makes room for a number of changes, and to take back all that is done from the mark on. An `Err` is as that of
    /// `reserve`.
    pub fn reserve_changes(&mut self, changes: u32) -> Result<(), NoMemory>
        ensures changes { OnOk result (changes ≤ self.new.changes) }
        ensures ready { OnOk result (IsReady self.new) }
        ensures marked { self.new.marked ≡ self.old.marked }
        ensures jobs { self.new.jobs ≡ self.old.jobs }
        ensures clock { self.new.clock ≡ self.old.clock }
        ensures next_serial { self.new.next_serial ≡ self.old.next_serial }
        ensures next_place { self.new.next_place ≡ self.old.next_place }
        ensures spare { self.old.spare ≤ self.new.spare }
        ensures err { OnErr result (self.new ≡ self.old) }
    {
        self.make_room(0, changes)
    }

    // Makes room for a number of jobs, and for a number of changes.
    fn make_room(&mut self, more: u32, changes: u32) -> Result<(), NoMemory>
        ensures ok { OnOk result (more ≤ self.new.spare) }
        ensures changes { OnOk result (changes ≤ self.new.changes) }
        ensures ready { OnOk result (IsReady self.new) }
        ensures marked { self.new.marked ≡ self.old.marked }
        ensures jobs { self.new.jobs ≡ self.old.jobs }
        ensures clock { self.new.clock ≡ self.old.clock }
        ensures next_serial { self.new.next_serial ≡ self.old.next_serial }
        ensures next_place { self.new.next_place ≡ self.old.next_place }
        ensures spare { self.old.spare ≤ self.new.spare }
        ensures err { OnErr result (self.new ≡ self.old) }
    {
        if more <= self.room && changes <= self.changes && self.is_ready() {
            return Ok(());
        }
        let more = more.max(self.room);
        if more as usize + self.jobs.len() > MOST
            || self.touched.len() > MOST
            || changes as usize > MOST
        {
            return Err(AllocError);
        }
        let launches = more + self.waiting.len() as u32;
        let notes = changes + self.touched.len() as u32;
        let undos = launches + notes;
        self.jobs.reserve(room_for(more, self.jobs.len()) as usize)?;
        self.touched
            .reserve(room_for(launches + changes, self.touched.len()) as usize)?;
        let active = self.active.len();
        reserve_all(
            &mut self.waiting,
            &mut self.tally,
            &mut self.starting,
            &mut self.active,
            &mut self.prestart,
            &mut self.names,
            more + notes,
            room_for(launches + undos, active),
            undos,
            more + undos,
        )?;
        self.room = more;
        self.changes = changes;
        self.undos = undos;
        Ok(())
    }

    // Whether all that is noted can be taken back, and what is done yet.
    fn is_ready(&self) -> bool
        ensures { result ≡ true → IsReady self.now }
    {
        let noted = self.touched.len();
        noted <= MOST
            && self.waiting.len() + self.room as usize + self.changes as usize + noted
                <= self.undos as usize
    }

    /// Adds a job that waits on a queue, with the next serial and the next place. It takes no memory.
    pub fn push(&mut self, job: Job)
        requires spare { 1 ≤ self.old.spare }
        requires waits { is_waiting job.phase ≡ true }
        requires queue { is_some job.jobq ≡ true }
        requires serial { job.serial ≡ self.old.next_serial }
        requires place { job.place ≡ self.old.next_place }
        requires serial_fits { self.old.next_serial + 1 < 2 ^ 64 }
        requires place_fits { self.old.next_place + 1 < 2 ^ 64 }
        ensures jobs { self.new.jobs ≡ self.old.jobs ++ job ∷ [] }
        ensures clock { self.new.clock ≡ self.old.clock }
        ensures next_serial { self.new.next_serial ≡ self.old.next_serial + 1 }
        ensures next_place { self.new.next_place ≡ self.old.next_place + 1 }
        ensures spare { self.old.spare ≡ self.new.spare + 1 }
        ensures changes { self.new.changes ≡ self.old.changes }
        ensures ready { IsReady self.old → IsReady self.new }
        ensures marked { self.new.marked ≡ self.old.marked }
    {
        let Some(waiter) = waiter_of(&job) else {
            unreachable!()
        };
        self.waiting.insert(waiter);
        self.names.add(&job);
        self.jobs.push_reserved(job);
        self.next_serial += 1;
        self.next_place += 1;
        self.room -= 1;
        // `len` tells that places differ.
        self.waiting.len();
    }

    /// Adds a job that was launched as it was made, with the next serial. It never waits, so it has no place. It takes no
    /// memory.
    pub fn push_launched(&mut self, job: Job)
        requires spare { 1 ≤ self.old.spare }
        requires launched { is_waiting job.phase ≡ false }
        requires serial { job.serial ≡ self.old.next_serial }
        requires place { job.place ≡ 0 }
        requires serial_fits { self.old.next_serial + 1 < 2 ^ 64 }
        ensures jobs { self.new.jobs ≡ self.old.jobs ++ job ∷ [] }
        ensures clock { self.new.clock ≡ self.old.clock }
        ensures next_serial { self.new.next_serial ≡ self.old.next_serial + 1 }
        ensures next_place { self.new.next_place ≡ self.old.next_place }
        ensures spare { self.old.spare ≡ self.new.spare + 1 }
        ensures changes { self.new.changes ≡ self.old.changes }
        ensures ready { IsReady self.old → IsReady self.new }
        ensures marked { self.new.marked ≡ self.old.marked }
    {
        let starts = is_active(&job.phase);
        let busy = counts_as_busy(starts, &job.kind);
        count_start(&mut self.tally, &job.how, &job.phase);
        put_order(&mut self.starting, job.serial, &job.phase);
        self.names.add(&job);
        put_active(&mut self.active, job.serial, &job.phase, &job.wish);
        put_prestart(&mut self.prestart, &job);
        self.busy = more(self.busy, busy);
        self.jobs.push_reserved(job);
        self.next_serial += 1;
        self.room -= 1;
    }

    /// Makes of the job of a serial what its launch made of it. It takes no memory.
    pub fn launch(&mut self, serial: Serial, launched: &Launched)
        requires phase { is_waiting launched.now.phase ≡ false }
        requires waits { IfSome (find (λ j. j.serial == serial) self.old.jobs) (λ j. is_waiting j.phase ≡ true) }
        ensures jobs { self.new.jobs ≡ map (changed_at serial (as_launched launched.now)) self.old.jobs }
        ensures clock { self.new.clock ≡ self.old.clock }
        ensures next_serial { self.new.next_serial ≡ self.old.next_serial }
        ensures next_place { self.new.next_place ≡ self.old.next_place }
        ensures spare { self.old.spare ≤ self.new.spare }
        ensures changes { self.new.changes ≡ self.old.changes }
        ensures ready { IsReady self.old → IsReady self.new }
        ensures marked { self.new.marked ≡ self.old.marked }
    {
        let Some(found) = self.found(serial) else {
            return;
        };
        let mut standing = found.was;
        standing.phase = launched.phase;
        standing.how = launched.how;
        self.restand(serial, &found, &standing);
    }

    /// Puts the job of a serial, which is active, into a phase behind Starting. It takes no memory.
    pub fn set_phase(&mut self, serial: Serial, phase: Phase)
        requires not_waiting { is_waiting phase ≡ false }
        requires not_starting { is_starting phase ≡ false }
        requires active { IfSome (find (λ j. j.serial == serial) self.old.jobs) (λ j. is_active j.phase ≡ true) }
        requires changes { 1 ≤ self.old.changes }
        ensures jobs { self.new.jobs ≡ map (phased_at serial phase) self.old.jobs }
        ensures clock { self.new.clock ≡ self.old.clock }
        ensures next_serial { self.new.next_serial ≡ self.old.next_serial }
        ensures next_place { self.new.next_place ≡ self.old.next_place }
        ensures spare { self.old.spare ≤ self.new.spare }
        ensures changes { self.old.changes ≤ self.new.changes + 1 }
        ensures ready { IsReady self.old → IsReady self.new }
        ensures marked { self.new.marked ≡ self.old.marked }
    {
        let Some(found) = self.found(serial) else {
            return;
        };
        let mut standing = found.was;
        standing.phase = phase;
        self.restand(serial, &found, &standing);
    }

    /// Time goes on to a moment: the jobs that wait up to then are due.
    pub fn make_due(&mut self, now: Moment)
        ensures jobs { self.new.jobs ≡ self.old.jobs }
        ensures clock { self.new.clock ≡ max self.old.clock now }
        ensures next_serial { self.new.next_serial ≡ self.old.next_serial }
        ensures next_place { self.new.next_place ≡ self.old.next_place }
        ensures spare { self.new.spare ≡ self.old.spare }
        ensures changes { self.new.changes ≡ self.old.changes }
        ensures ready { IsReady self.old → IsReady self.new }
        ensures marked { self.new.marked ≡ self.old.marked }
    {
        self.waiting.make_due(now);
    }

    /// The job of a serial, which is the one job that has it.
    pub fn job(&self, serial: Serial) -> Option<&Job>
        ensures found { option_copied result ≡ find (λ j. j.serial == serial) self.now.jobs }
        ensures one { (j : Job) → IsIn j self.now.jobs → j.serial ≡ serial → option_copied result ≡ Some j }
    {
        match place(&self.jobs, serial) {
            Ok(at) => Some(&self.jobs[at]),
            Err(_) => None,
        }
    }

    /// The Starting job of least serial.
    pub fn first_starting(&self) -> Option<&Job>
        ensures first { option_copied result ≡ find (λ j. is_starting j.phase) self.now.jobs }
        ensures by_serial { (j : Job) → option_copied result ≡ Some j → find (λ k. k.serial == j.serial) self.now.jobs ≡ Some j }
    {
        let (serial, _) = self.starting.first()?;
        self.job(serial)
    }

    /// The active job of least serial that isn't below a serial. It is one look. It also tells that serials ascend, and that
    /// there is a number above that of the job.
    pub fn active_from(&self, serial: Serial) -> Option<&Job>
        ensures found { option_copied result ≡ find (λ j. is_active j.phase && nat_le serial j.serial) self.now.jobs }
        ensures by_serial { (j : Job) → option_copied result ≡ Some j → find (λ k. k.serial == j.serial) self.now.jobs ≡ Some j }
        ensures sorted { IsSortedOnce serial_of nat_cmp self.now.jobs }
        ensures fits { (j : Job) → option_copied result ≡ Some j → j.serial + 1 < 2 ^ 64 }
    {
        // The next serial is above all, and keeps its range.
        self.next_serial();
        let serial = self.active.first_from(serial)?;
        self.job(serial)
    }

    /// The jobs, in the order of their serials.
    pub fn jobs(&self) -> &[Job]
        ensures { result.now ≡ self.now.jobs }
    {
        &self.jobs
    }

    /// The jobs that wait. It also tells that serials ascend.
    pub fn waiting(&self) -> &WaitingJobs
        ensures items { result.now.items ≡ waiters self.now.jobs }
        ensures clock { result.now.clock ≡ self.now.clock }
        ensures sorted { IsSortedOnce serial_of nat_cmp self.now.jobs }
    {
        &self.waiting
    }

    /// How many active jobs count against each limit.
    pub fn tally(&self) -> &Tally
        ensures { IsTally (hows self.now.jobs) result.now }
    {
        &self.tally
    }

    /// How many jobs are active.
    pub fn active(&self) -> usize
        ensures { result ≡ active_in self.now.jobs }
    {
        self.active.len()
    }

    /// How many active jobs aren't prestart jobs.
    pub fn busy(&self) -> usize
        ensures { result ≡ busy_in self.now.jobs }
    {
        self.busy
    }

    /// How many jobs wait for a monitor.
    pub fn orders(&self) -> usize
        ensures { result ≡ starting_in self.now.jobs }
    {
        self.starting.len()
    }

    /// The least moment above the clock at which a Waiting job is due.
    pub fn next_due(&self) -> Option<Moment>
        ensures { result ≡ next_due_in self.now.clock self.now.jobs }
    {
        self.waiting.next_due()
    }

    /// The moment up to which waiting jobs are due.
    pub fn clock(&self) -> Moment
        ensures { result ≡ self.now.clock }
    {
        self.waiting.clock()
    }

    /// The serial of the next job.
    pub fn next_serial(&self) -> u64
        ensures { result ≡ self.now.next_serial }
    {
        self.next_serial
    }

    /// The place of the next job.
    pub fn next_place(&self) -> u64
        ensures { result ≡ self.now.next_place }
    {
        self.next_place
    }
}
