// EVOKE and ENDUSE, and the report that a use is done: a prestart job gets a request, and is done with it.
ghost use Rattle.std.specs.Prelude.{◌≡◌};
ghost use Rattle.wm_law.specs.Prestart.{is_running};

use crate::Machine;
use crate::reports::{is_run_by, phase_word};
use wm_base::{How, JobName, Kind, Limit, Name, NoMemory, QName, Refusal, Serial};
use wm_desc::PreEntry;
use wm_law::{Enduse, Evoke, EvokeCommand, Phase, Reply};
use wm_subsystems::{is_ending, is_evoke_of, is_on, is_stopped};

/// How many requests may wait for an entry.
const MAX_EVOKES: usize = 1000;

fn is_running(phase: &Phase) -> bool
    ensures { result ≡ is_running phase.now }
{
    match phase {
        Phase::Running(_) => true,
        _ => false,
    }
}

impl Machine {
    ghost use Rattle.std.specs.Prelude.{◌≡◌, Some, OnOk, OnErr, IfOk, count_by};
    ghost use Rattle.std.specs.Option.{option_copied};
    ghost use Rattle.wm_desc.specs.Table.{object_named};
    ghost use Rattle.wm_law.specs.declared.job.Job.{Job};
    ghost use Rattle.wm_law.specs.Laws.{IsIn};
    ghost use Rattle.wm_law.specs.Launch.{pre_entry};
    ghost use Rattle.wm_law.specs.Prestart.{count_evokes};
    ghost use Rattle.wm_law.specs.Uses.{end_use, evoke, evoke_waits, evoke_with, maxuse_by, use_done, use_ended};

    // How many requests wait for an entry.
    fn count_evokes(&self, sbs: &QName, pgm: &QName) -> usize
        ensures { result ≡ count_evokes sbs.now pgm.now self.now.state.evokes }
    {
        self.evokes
            .as_slice()
            .iter()
            .filter(|evoke| is_evoke_of(sbs, pgm, evoke))
            .count()
    }

    // EVOKE where no job is idle: the request waits, where the entry has WAIT(*YES) and not too many wait already.
    fn evoke_waits(&mut self, user: &Name, sbs: &QName, entry: &PreEntry) -> Result<Reply, NoMemory>
        ensures reply { IfOk result (λ r. r ≡ (evoke_waits self.old.state user.now sbs.now entry.now).reply) }
        ensures state { OnOk result (self.new.state ≡ (evoke_waits self.old.state user.now sbs.now entry.now).state) }
        ensures marks { OnOk result (self.new.marks ≡ self.old.marks) }
        ensures err { OnErr result (self.new ≡ self.old) }
    {
        if !entry.wait {
            return Ok(Reply::No(Refusal::NoneAvailable));
        }
        let waiting = self.count_evokes(sbs, &entry.pgm);
        if waiting >= MAX_EVOKES {
            return Ok(Reply::No(Refusal::WaitListFull(MAX_EVOKES as u32)));
        }
        self.evokes.push(Evoke {
            user: *user,
            sbs: *sbs,
            pgm: entry.pgm,
        })?;
        Ok(Reply::EvokeWaits(waiting as u32 + 1))
    }

    // EVOKE of an entry of a subsystem.
    fn evoke_with(&mut self, user: &Name, sbs: &QName, pgm: &QName) -> Result<Reply, NoMemory>
        ensures reply { IfOk result (λ r. r ≡ (evoke_with self.old.state user.now sbs.now pgm.now (object_named sbs.now self.old.state.objects.sbsds)).reply) }
        ensures state { OnOk result (self.new.state ≡ (evoke_with self.old.state user.now sbs.now pgm.now (object_named sbs.now self.old.state.objects.sbsds)).state) }
        ensures marks { OnOk result (self.new.marks ≡ self.old.marks) }
        ensures err { OnErr result (self.new ≡ self.old) }
    {
        let Some(description) = self.objects.sbsds.object(sbs) else {
            return Ok(Reply::No(Refusal::NoObject(Kind::Pje)));
        };
        let Some(entry) = description.pres.get(pgm) else {
            return Ok(Reply::No(Refusal::NoObject(Kind::Pje)));
        };
        let entry = *entry;
        if is_stopped(&self.stopped, sbs, &entry.pgm) {
            return Ok(Reply::No(Refusal::EntryStopped));
        }
        let Some(job) = self.table.first_idle(sbs, &entry.pgm) else {
            let reply = self.evoke_waits(user, sbs, &entry)?;
            return Ok(reply);
        };
        let serial = job.serial;
        let name = job.job;
        self.table.reserve_changes(1)?;
        self.table.give_evoke(serial);
        Ok(Reply::Evoked(name))
    }

    /// EVOKE. An `Err` is want of memory and leaves the state.
    pub(crate) fn evoke(&mut self, user: &Name, command: &EvokeCommand) -> Result<Reply, NoMemory>
        ensures reply { IfOk result (λ r. r ≡ (evoke self.old.state user.now command.now).reply) }
        ensures state { OnOk result (self.new.state ≡ (evoke self.old.state user.now command.now).state) }
        ensures marks { OnOk result (self.new.marks ≡ self.old.marks) }
        ensures err { OnErr result (self.new ≡ self.old) }
    {
        if !is_on(&self.power) {
            return Ok(Reply::No(Refusal::PoweringDown));
        }
        let Some(sbs) = self.started_named(&command.sbs) else {
            return Ok(Reply::No(Refusal::SbsNotActive));
        };
        if is_ending(&sbs.phase) {
            return Ok(Reply::No(Refusal::AlreadyEnding));
        }
        let name = sbs.sbsd;
        let reply = self.evoke_with(user, &name, &command.pgm)?;
        Ok(reply)
    }

    // How often a job may be used, by how it came.
    fn maxuse_by(&self, how: &How) -> Limit
        ensures { result ≡ maxuse_by self.now.state how.now }
    {
        let How::Pre { sbs, pgm } = how else {
            return Limit::NoMax;
        };
        let Some(description) = self.objects.sbsds.object(sbs) else {
            return Limit::NoMax;
        };
        match description.pres.get(pgm) {
            None => Limit::NoMax,
            Some(entry) => entry.maxuse,
        }
    }

    // The use of the job of a serial is done.
    fn end_use_of(&mut self, serial: Serial, how: &How) -> Result<(), NoMemory>
        ensures ok { OnOk result ((j : Job) → j.serial ≡ serial → j.how ≡ how.now → self.new.state ≡ use_ended self.old.state j) }
        ensures marks { OnOk result (self.new.marks ≡ self.old.marks) }
        ensures err { OnErr result (self.new ≡ self.old) }
    {
        let maxuse = self.maxuse_by(how);
        self.table.reserve_changes(1)?;
        self.table.end_use(serial, &maxuse);
        Ok(())
    }

    /// ENDUSE. An `Err` is want of memory and leaves the state.
    pub(crate) fn end_use(&mut self, command: &Enduse) -> Result<Reply, NoMemory>
        ensures reply { IfOk result (λ r. r ≡ (end_use self.old.state command.now).reply) }
        ensures state { OnOk result (self.new.state ≡ (end_use self.old.state command.now).state) }
        ensures marks { OnOk result (self.new.marks ≡ self.old.marks) }
        ensures err { OnErr result (self.new ≡ self.old) }
    {
        let job = match self.table.named(&command.job) {
            Ok(job) => job,
            Err(refusal) => return Ok(Reply::No(refusal)),
        };
        if !is_running(&job.phase) {
            return Ok(Reply::No(Refusal::WrongPhase(phase_word(&job.phase))));
        }
        if !job.evoke {
            return Ok(Reply::No(Refusal::NotInUse));
        }
        let name = job.job;
        let serial = job.serial;
        let how = job.how;
        self.end_use_of(serial, &how)?;
        Ok(Reply::UseEnded(name))
    }

    /// UseDone: the job that the monitor runs is done with its request. An `Err` is want of memory and leaves the state.
    pub(crate) fn report_use_done(
        &mut self,
        monitor: u32,
        serial: Serial,
    ) -> Result<Reply, NoMemory>
        ensures reply { IfOk result (λ r. r ≡ (use_done self.old.state monitor serial).reply) }
        ensures state { OnOk result (self.new.state ≡ (use_done self.old.state monitor serial).state) }
        ensures marks { OnOk result (self.new.marks ≡ self.old.marks) }
        ensures err { OnErr result (self.new ≡ self.old) }
    {
        let Some(job) = self.table.job(serial) else {
            return Ok(Reply::No(Refusal::NoJob));
        };
        if !is_run_by(monitor, &job.phase) {
            return Ok(Reply::No(Refusal::WrongPhase(phase_word(&job.phase))));
        }
        if !job.evoke {
            return Ok(Reply::No(Refusal::NotInUse));
        }
        let how = job.how;
        self.end_use_of(serial, &how)?;
        Ok(Reply::Noted)
    }
}
