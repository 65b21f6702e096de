// Settling's third part: waiting requests go to idle prestart jobs, and prestart entries get the jobs that they lack; and the
// first prestart jobs of a subsystem that starts. Memory may be wanting in the middle: then the step is taken back.
ghost use Rattle.std.specs.Prelude.{◌≡◌, position};
ghost use Rattle.wm_law.specs.Prestart.{is_evoke_of, without_first};

use crate::Machine;
use std::alloc::Global;
use wm_base::{How, JobName, JobNumber, Limit, Name, NoMemory, Priority, QName, Serial, Text};
use wm_desc::PreEntry;
use wm_indexes::{Supply, replenish, room};
use wm_law::{Evoke, Evokes, Job, JobKind, Phase, Wish};
use wm_subsystems::{is_evoke_of, is_stopped};

// The place of the first request that waits for an entry.
fn first_place(evokes: &[Evoke], sbs: &QName, pgm: &QName) -> Option<usize>
    ensures { result ≡ position (is_evoke_of sbs.now pgm.now) evokes.now }
{
    evokes.iter().position(|evoke| is_evoke_of(sbs, pgm, evoke))
}

// Takes out the first request that waits for an entry, where there is one.
fn take_first(evokes: &mut Evokes, sbs: &QName, pgm: &QName)
    ensures { evokes.new ≡ without_first sbs.now pgm.now evokes.old }
{
    if let Some(at) = first_place(evokes.as_slice(), sbs, pgm) {
        evokes.items.remove(at);
    }
}

impl Machine {
    ghost use Rattle.std.specs.Prelude.{◌≡◌, ◌≤◌, codes, fold, option_map, OnOk};
    ghost use Rattle.std.specs.List.{list_any};
    ghost use Rattle.wm_desc.specs.declared.description.Sbsd.{Sbsd};
    ghost use Rattle.wm_law.specs.declared.job.Job.{Job};
    ghost use Rattle.wm_law.specs.Prestart.{is_evoke_of, assign, assigned, assigned_to, make_pre, make_pres, new_pre_job, replenished};
    ghost use Rattle.wm_law.specs.Submitting.{numbers_left};
    ghost use Rattle.wm_law.specs.Supply.{make_first, make_firsts, supply, supply_entry, supply_in};
    ghost use Rattle.wm_indexes.specs.Supply.{IsSupply};
    ghost use Rattle.wm_core.specs.Aside.{aside_of};

    // What the number of jobs that are made for an entry rests on.
    pub(crate) fn supply_of(&self, sbs: &QName, maxjobs: &Limit, entry: &PreEntry) -> Supply
        ensures { (d : Sbsd) → d.maxjobs ≡ maxjobs.now → IsSupply self.now.state sbs.now d entry.now result }
    {
        let parts = self.parts();
        Supply {
            stopped: is_stopped(&self.stopped, sbs, &entry.pgm),
            available: self.table.count_available(sbs, &entry.pgm),
            count: parts.count_from_pre(sbs, &entry.pgm),
            sbs_maxjobs: *maxjobs,
            sbs_count: parts.count_in_sbs(sbs),
            numbers_left: self.numbers_left(),
        }
    }

    // A new job of an entry, which is Starting at once.
    fn new_pre_job(&self, sbs: &QName, pgm: &QName, rtgdta: Text) -> Job
        requires numbers { 1 ≤ numbers_left self.now.state }
        requires blank { rtgdta ≡ codes " " }
        ensures { result ≡ new_pre_job self.now.state sbs.now pgm.now }
    {
        Job {
            serial: Serial::new(self.table.next_serial()),
            job: JobName {
                number: JobNumber::new(self.next_number),
                user: Name::of(b"QUSER"),
                name: pgm.name,
            },
            kind: JobKind::Pj,
            jobq: None,
            pty: Priority::new(5),
            place: 0,
            rtgdta,
            rqsdta: None,
            held: false,
            due: self.table.clock(),
            phase: Phase::Starting,
            how: How::Pre {
                sbs: *sbs,
                pgm: *pgm,
            },
            wish: Wish::NoWish,
            uses: 0,
            evoke: false,
        }
    }

    // A job is made for an entry.
    fn make_pre(&mut self, alloc: Global, sbs: &QName, pgm: &QName) -> Result<(), NoMemory>
        requires numbers { 1 ≤ numbers_left self.old.state }
        ensures ok { OnOk result (self.new.state ≡ make_pre sbs.now pgm.now self.old.state) }
        ensures aside { aside_of self.new.state ≡ aside_of self.old.state }
        ensures marks { self.new.marks ≡ self.old.marks }
    {
        let rtgdta = Text::from_bytes(alloc, b" ")?;
        self.table.reserve(1)?;
        let job = self.new_pre_job(sbs, pgm, rtgdta);
        self.table.push_launched(job);
        self.next_number += 1;
        Ok(())
    }

    // So many jobs are made for an entry.
    pub(crate) fn make_pres(
        &mut self,
        alloc: Global,
        sbs: &QName,
        pgm: &QName,
        jobs: u32,
    ) -> Result<(), NoMemory>
        requires numbers { jobs ≤ numbers_left self.old.state }
        ensures ok { OnOk result (self.new.state ≡ make_pres sbs.now pgm.now jobs self.old.state) }
        ensures aside { aside_of self.new.state ≡ aside_of self.old.state }
        ensures marks { self.new.marks ≡ self.old.marks }
    {
        for _made in 0..jobs {
            self.make_pre(alloc, sbs, pgm)?;
        }
        Ok(())
    }

    // Whether a request waits for an entry.
    fn has_request(&self, sbs: &QName, pgm: &QName) -> bool
        ensures { result ≡ list_any (is_evoke_of sbs.now pgm.now) self.now.state.evokes }
    {
        self.evokes
            .as_slice()
            .iter()
            .any(|evoke| is_evoke_of(sbs, pgm, evoke))
    }

    // The serial of the job that gets the first request that waits for an entry, where there are both.
    fn assign(&self, sbs: &QName, pgm: &QName) -> Option<Serial>
        ensures { result ≡ option_map (λ j. j.serial) (assign sbs.now pgm.now self.now.state) }
    {
        if !self.has_request(sbs, pgm) {
            return None;
        }
        let job = self.table.first_idle(sbs, pgm)?;
        Some(job.serial)
    }

    // The job of a serial gets the first request that waits for an entry.
    fn assign_to(&mut self, sbs: &QName, pgm: &QName, serial: Serial) -> Result<(), NoMemory>
        ensures ok { OnOk result ((j : Job) → j.serial ≡ serial → self.new.state ≡ assigned_to sbs.now pgm.now j self.old.state) }
        ensures aside { aside_of self.new.state ≡ aside_of self.old.state }
        ensures marks { self.new.marks ≡ self.old.marks }
    {
        self.table.reserve_changes(1)?;
        self.table.give_evoke(serial);
        take_first(&mut self.evokes, sbs, pgm);
        Ok(())
    }

    // Requests that wait for an entry go to its idle jobs.
    fn assign_all(&mut self, sbs: &QName, pgm: &QName) -> Result<(), NoMemory>
        ensures ok { OnOk result (self.new.state ≡ assigned self.old.state sbs.now pgm.now) }
        ensures aside { aside_of self.new.state ≡ aside_of self.old.state }
        ensures marks { self.new.marks ≡ self.old.marks }
    {
        while let Some(serial) = self.assign(sbs, pgm) {
            self.assign_to(sbs, pgm, serial)?;
        }
        Ok(())
    }

    // An entry gets the jobs that it lacks.
    fn replenish(
        &mut self,
        alloc: Global,
        sbs: &QName,
        maxjobs: &Limit,
        entry: &PreEntry,
    ) -> Result<(), NoMemory>
        ensures ok { OnOk result ((d : Sbsd) → d.maxjobs ≡ maxjobs.now → self.new.state ≡ replenished self.old.state sbs.now d entry.now) }
        ensures aside { aside_of self.new.state ≡ aside_of self.old.state }
        ensures marks { self.new.marks ≡ self.old.marks }
    {
        let jobs = replenish(entry, &self.supply_of(sbs, maxjobs, entry));
        self.make_pres(alloc, sbs, &entry.pgm, jobs)?;
        Ok(())
    }

    fn supply_entry(
        &mut self,
        alloc: Global,
        sbs: &QName,
        maxjobs: &Limit,
        entry: &PreEntry,
    ) -> Result<(), NoMemory>
        ensures ok { OnOk result ((d : Sbsd) → d.maxjobs ≡ maxjobs.now → self.new.state ≡ supply_entry sbs.now d self.old.state entry.now) }
        ensures aside { aside_of self.new.state ≡ aside_of self.old.state }
        ensures marks { self.new.marks ≡ self.old.marks }
    {
        self.assign_all(sbs, &entry.pgm)?;
        self.replenish(alloc, sbs, maxjobs, entry)?;
        Ok(())
    }

    fn supply_entries(
        &mut self,
        alloc: Global,
        sbs: &QName,
        maxjobs: &Limit,
        entries: &[PreEntry],
    ) -> Result<(), NoMemory>
        ensures ok { OnOk result ((d : Sbsd) → d.maxjobs ≡ maxjobs.now → self.new.state ≡ fold (supply_entry sbs.now d) self.old.state entries.now) }
        ensures aside { aside_of self.new.state ≡ aside_of self.old.state }
        ensures marks { self.new.marks ≡ self.old.marks }
    {
        for entry in entries {
            self.supply_entry(alloc, sbs, maxjobs, entry)?;
        }
        Ok(())
    }

    // The same for each prestart entry of a subsystem. The entries are copied, since the machine changes.
    pub(crate) fn supply_in(&mut self, alloc: Global, sbs: &QName) -> Result<(), NoMemory>
        ensures ok { OnOk result (self.new.state ≡ supply_in self.old.state sbs.now) }
        ensures aside { aside_of self.new.state ≡ aside_of self.old.state }
        ensures marks { self.new.marks ≡ self.old.marks }
    {
        let Some(description) = self.objects.sbsds.object(sbs) else {
            return Ok(());
        };
        let maxjobs = description.maxjobs;
        let entries = description.pres.as_slice().to_vec(alloc)?;
        self.supply_entries(alloc, sbs, &maxjobs, &entries)?;
        Ok(())
    }

    // The first jobs of an entry.
    fn make_first(
        &mut self,
        alloc: Global,
        sbs: &QName,
        maxjobs: &Limit,
        entry: &PreEntry,
    ) -> Result<(), NoMemory>
        ensures ok { OnOk result ((d : Sbsd) → d.maxjobs ≡ maxjobs.now → self.new.state ≡ make_first sbs.now d self.old.state entry.now) }
        ensures aside { aside_of self.new.state ≡ aside_of self.old.state }
        ensures marks { self.new.marks ≡ self.old.marks }
    {
        if !entry.strjobs {
            return Ok(());
        }
        let jobs = room(entry, &self.supply_of(sbs, maxjobs, entry), entry.inljobs);
        self.make_pres(alloc, sbs, &entry.pgm, jobs)?;
        Ok(())
    }

    fn make_firsts_of(
        &mut self,
        alloc: Global,
        sbs: &QName,
        maxjobs: &Limit,
        entries: &[PreEntry],
    ) -> Result<(), NoMemory>
        ensures ok { OnOk result ((d : Sbsd) → d.maxjobs ≡ maxjobs.now → self.new.state ≡ fold (make_first sbs.now d) self.old.state entries.now) }
        ensures aside { aside_of self.new.state ≡ aside_of self.old.state }
        ensures marks { self.new.marks ≡ self.old.marks }
    {
        for entry in entries {
            self.make_first(alloc, sbs, maxjobs, entry)?;
        }
        Ok(())
    }

    /// The first prestart jobs of a subsystem are made.
    pub(crate) fn make_firsts(&mut self, alloc: Global, sbs: &QName) -> Result<(), NoMemory>
        ensures ok { OnOk result (self.new.state ≡ make_firsts sbs.now self.old.state) }
        ensures aside { aside_of self.new.state ≡ aside_of self.old.state }
        ensures marks { self.new.marks ≡ self.old.marks }
    {
        let Some(description) = self.objects.sbsds.object(sbs) else {
            return Ok(());
        };
        let maxjobs = description.maxjobs;
        let entries = description.pres.as_slice().to_vec(alloc)?;
        self.make_firsts_of(alloc, sbs, &maxjobs, &entries)?;
        Ok(())
    }
}
