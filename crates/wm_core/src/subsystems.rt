// STRSBS: a subsystem is started, and with it its autostart jobs and its first prestart jobs. Its entries with STRJOBS(*NO) are
// stopped then.
ghost use Rattle.std.specs.Prelude.{◌≡◌, ◌++◌, OnOk};
ghost use Rattle.wm_core.specs.Supplied.{stop_unless_started};

use crate::Machine;
use crate::autos::{drafts, enter_drafts};
use crate::draft::{Draft, Site};
use crate::submitting::{NUMBERS_END, SERIALS_END};
use std::alloc::Global;
use wm_base::{Kind, Name, NoMemory, QName, Refusal};
use wm_desc::{AutoEntry, PreEntry};
use wm_law::{ListOf, Reply, Sbs, SbsPhase, Stop, Stops};
use wm_subsystems::is_on;

/// How many subsystems may be started.
const MAX_STARTED: usize = 32;

// Adds the stopped entry, where it has STRJOBS(*NO).
fn add_unless_started(stops: &mut Vec<Stop>, sbs: &QName, entry: &PreEntry) -> Result<(), NoMemory>
    ensures { OnOk result (stops.new.items ≡ stops.old.items ++ stop_unless_started sbs.now entry.now) }
{
    if !entry.strjobs {
        stops.push(Stop {
            sbs: *sbs,
            pgm: entry.pgm,
        })?;
    }
    Ok(())
}

impl Machine {
    ghost use Rattle.std.specs.Prelude.{◌≡◌, ◌≤◌, ◌++◌, length, fold, OnOk, OnErr, IfOk};
    ghost use Rattle.wm_law.specs.Autos.{autos_of};
    ghost use Rattle.wm_law.specs.Submitting.{numbers_left};
    ghost use Rattle.wm_law.specs.Subsystems.{is_started, start_refusal, begun, start_subsystem};
    ghost use Rattle.wm_law.specs.Supply.{first_stops, pres_of};
    ghost use Rattle.wm_core.specs.Aside.{aside_of};
    ghost use Rattle.wm_core.specs.Drafts.{enter_draft};

    fn is_started(&self, name: &Name) -> bool
        ensures { result ≡ is_started self.now.state name.now }
    {
        self.started
            .as_slice()
            .iter()
            .any(|sbs| sbs.sbsd.name == *name)
    }

    // The autostart entries of a description, in the order of their job names.
    fn autos_of(&self, q: &QName) -> &[AutoEntry]
        ensures { result.now ≡ autos_of self.now.state q.now }
    {
        match self.objects.sbsds.object(q) {
            None => &[],
            Some(description) => description.autos.as_slice(),
        }
    }

    // The prestart entries of a description, in the order of their programs.
    pub(crate) fn pres_of(&self, q: &QName) -> &[PreEntry]
        ensures { result.now ≡ pres_of self.now.state q.now }
    {
        match self.objects.sbsds.object(q) {
            None => &[],
            Some(description) => description.pres.as_slice(),
        }
    }

    // How many jobs can still be made.
    pub(crate) fn numbers_left(&self) -> u32
        ensures { result ≡ numbers_left self.now.state }
    {
        if self.next_number < 1 {
            return 0;
        }
        let numbers = NUMBERS_END.saturating_sub(self.next_number);
        let serials = SERIALS_END.saturating_sub(self.table.next_serial());
        serials.min(u64::from(numbers)) as u32
    }

    // Why a subsystem can't be started.
    fn start_refusal(&self, q: &QName) -> Option<Refusal>
        ensures { result ≡ start_refusal self.now.state q.now }
    {
        if !is_on(&self.power) {
            return Some(Refusal::PoweringDown);
        }
        if self.objects.sbsds.object(q).is_none() {
            return Some(Refusal::NoObject(Kind::Sbsd));
        }
        if self.is_started(&q.name) {
            return Some(Refusal::AlreadyActive);
        }
        if self.started.len() >= MAX_STARTED {
            return Some(Refusal::TableFull(Kind::Sbs, MAX_STARTED as u32));
        }
        if (self.numbers_left() as usize) < self.autos_of(q).len() {
            return Some(Refusal::NumbersUsed);
        }
        None
    }

    // The stopped entries, with those of a subsystem that are stopped as it starts: those with STRJOBS(*NO).
    fn with_stops(&self, alloc: Global, q: &QName) -> Result<Stops, NoMemory>
        ensures { IfOk result (λ stops. stops ≡ self.now.state.stopped ++ first_stops self.now.state q.now) }
    {
        let mut stops = self.stopped.as_slice().to_vec(alloc)?;
        for entry in self.pres_of(q) {
            add_unless_started(&mut stops, q, entry)?;
        }
        Ok(ListOf::from(stops))
    }

    // The subsystem goes last among the started ones, with the stopped entries, and then the job of each draft is made. All
    // memory is taken before anything is changed.
    fn start_up(&mut self, q: &QName, stops: Stops, drafts: Vec<Draft>) -> Result<(), NoMemory>
        requires stops { stops ≡ self.old.state.stopped ++ first_stops self.old.state q.now }
        requires numbers { length drafts.items ≤ numbers_left self.old.state }
        ensures ok { OnOk result (self.new.state ≡ fold (enter_draft q.now) (begun self.old.state q.now) drafts.items) }
        ensures marks { OnOk result (self.new.marks ≡ self.old.marks) }
        ensures err { OnErr result (self.new ≡ self.old) }
    {
        self.table.reserve(drafts.len() as u32)?;
        // This names the type of what a subsystem's phase may have, which the borrow check asks for.
        let _due = self.table.next_due();
        self.started.push(Sbs {
            sbsd: *q,
            phase: SbsPhase::Active,
        })?;
        self.stopped = stops;
        let site = Site {
            sbs: *q,
            objects: &self.objects,
            started: &self.started,
            held: &self.held,
        };
        enter_drafts(&mut self.table, &mut self.next_number, &site, drafts);
        Ok(())
    }

    /// STRSBS: the subsystem starts with its autostart jobs, which are due at the clock, and its first prestart jobs. An `Err`
    /// is want of memory, perhaps in the middle.
    pub(crate) fn start_subsystem(&mut self, alloc: Global, q: &QName) -> Result<Reply, NoMemory>
        ensures reply { IfOk result (λ r. r ≡ (start_subsystem self.old.state q.now).reply) }
        ensures state { OnOk result (self.new.state ≡ (start_subsystem self.old.state q.now).state) }
        ensures aside { OnErr result (aside_of self.new.state ≡ aside_of self.old.state) }
        ensures marks { self.new.marks ≡ self.old.marks }
    {
        if let Some(refusal) = self.start_refusal(q) {
            return Ok(Reply::No(refusal));
        }
        let drafts = drafts(alloc, &self.objects.jobds, self.autos_of(q))?;
        let stops = self.with_stops(alloc, q)?;
        self.start_up(q, stops, drafts)?;
        self.make_firsts(alloc, q)?;
        Ok(Reply::SbsStarted(*q))
    }
}
