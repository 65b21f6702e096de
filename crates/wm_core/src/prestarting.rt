// STRPJ and ENDPJ: a prestart entry makes jobs again, or is stopped and its jobs are told to end.
use crate::Machine;
use std::alloc::Global;
use wm_base::{Kind, Limit, NoMemory, QName, Refusal};
use wm_desc::PreEntry;
use wm_indexes::room;
use wm_law::{EndOption, Endpj, Reply, Strpj};
use wm_subsystems::{
    Telling, add_stop_of, drop_entry_evokes, drop_stop, is_ending, is_on, is_stopped,
    reserve_for_active, tell_all,
};

impl Machine {
    ghost use Rattle.std.specs.Prelude.{◌≡◌, OnOk, OnErr, IfOk};
    ghost use Rattle.wm_desc.specs.declared.description.Sbsd.{Sbsd};
    ghost use Rattle.wm_desc.specs.Table.{object_named};
    ghost use Rattle.wm_law.specs.Prestarting.{end_entry_with, end_prestart, entry_ended, prestart_with, prestarted, start_prestart};
    ghost use Rattle.wm_core.specs.Aside.{aside_of};
    ghost use Rattle.wm_subsystems.specs.Walks.{AreInLine};

    // An entry makes jobs again: so many that INLJOBS are available, where there is room.
    fn prestart(
        &mut self,
        alloc: Global,
        sbs: &QName,
        maxjobs: &Limit,
        entry: &PreEntry,
    ) -> Result<(), NoMemory>
        ensures ok { OnOk result ((d : Sbsd) → d.maxjobs ≡ maxjobs.now → self.new.state ≡ prestarted self.old.state sbs.now d entry.now) }
        ensures aside { aside_of self.new.state ≡ aside_of self.old.state }
        ensures marks { self.new.marks ≡ self.old.marks }
    {
        let available = self.table.count_available(sbs, &entry.pgm);
        let lacking = entry.inljobs.saturating_sub(available);
        drop_stop(&mut self.stopped, sbs, &entry.pgm);
        let jobs = room(entry, &self.supply_of(sbs, maxjobs, entry), lacking);
        self.make_pres(alloc, sbs, &entry.pgm, jobs)?;
        Ok(())
    }

    // STRPJ of an entry of a subsystem.
    fn prestart_with(&mut self, alloc: Global, sbs: &QName, pgm: &QName) -> Result<Reply, NoMemory>
        ensures reply { IfOk result (λ r. r ≡ (prestart_with self.old.state sbs.now pgm.now (object_named sbs.now self.old.state.objects.sbsds)).reply) }
        ensures state { OnOk result (self.new.state ≡ (prestart_with self.old.state sbs.now pgm.now (object_named sbs.now self.old.state.objects.sbsds)).state) }
        ensures aside { OnErr result (aside_of self.new.state ≡ aside_of self.old.state) }
        ensures marks { self.new.marks ≡ self.old.marks }
    {
        let Some(description) = self.objects.sbsds.object(sbs) else {
            return Ok(Reply::No(Refusal::NoObject(Kind::Pje)));
        };
        let maxjobs = description.maxjobs;
        let Some(entry) = description.pres.get(pgm) else {
            return Ok(Reply::No(Refusal::NoObject(Kind::Pje)));
        };
        let entry = *entry;
        if !is_stopped(&self.stopped, sbs, &entry.pgm) {
            return Ok(Reply::No(Refusal::AlreadyActive));
        }
        self.prestart(alloc, sbs, &maxjobs, &entry)?;
        Ok(Reply::PreStarted)
    }

    /// STRPJ. An `Err` is want of memory, perhaps in the middle.
    pub(crate) fn start_prestart(
        &mut self,
        alloc: Global,
        command: &Strpj,
    ) -> Result<Reply, NoMemory>
        ensures reply { IfOk result (λ r. r ≡ (start_prestart self.old.state command.now).reply) }
        ensures state { OnOk result (self.new.state ≡ (start_prestart self.old.state command.now).state) }
        ensures aside { OnErr result (aside_of self.new.state ≡ aside_of self.old.state) }
        ensures marks { self.new.marks ≡ self.old.marks }
    {
        if !is_on(&self.power) {
            return Ok(Reply::No(Refusal::PoweringDown));
        }
        let Some(sbs) = self.started_named(&command.sbs) else {
            return Ok(Reply::No(Refusal::SbsNotActive));
        };
        if is_ending(&sbs.phase) {
            return Ok(Reply::No(Refusal::AlreadyEnding));
        }
        let name = sbs.sbsd;
        let reply = self.prestart_with(alloc, &name, &command.pgm)?;
        Ok(reply)
    }

    // An entry is stopped, its jobs are told to end, and the requests that wait there go. All memory is taken before anything
    // is changed.
    fn end_entry(
        &mut self,
        sbs: &QName,
        pgm: &QName,
        option: EndOption,
        delay: Option<u32>,
    ) -> Result<(), NoMemory>
        requires line { AreInLine self.old.state.next_serial self.old.state.jobs }
        ensures ok { OnOk result (self.new.state ≡ entry_ended self.old.state option delay sbs.now pgm.now) }
        ensures marks { OnOk result (self.new.marks ≡ self.old.marks) }
        ensures err { OnErr result (self.new ≡ self.old) }
    {
        reserve_for_active(&mut self.table)?;
        add_stop_of(&mut self.stopped, sbs, pgm)?;
        let telling = Telling::Entry {
            option,
            delay,
            sbs: *sbs,
            pgm: *pgm,
        };
        let clock = self.table.clock();
        tell_all(&mut self.table, &telling, clock, &self.started);
        drop_entry_evokes(&mut self.evokes, sbs, pgm);
        Ok(())
    }

    // ENDPJ of an entry of a subsystem.
    fn end_entry_with(&mut self, sbs: &QName, command: &Endpj) -> Result<Reply, NoMemory>
        requires line { AreInLine self.old.state.next_serial self.old.state.jobs }
        ensures reply { IfOk result (λ r. r ≡ (end_entry_with self.old.state command.now sbs.now (object_named sbs.now self.old.state.objects.sbsds)).reply) }
        ensures state { OnOk result (self.new.state ≡ (end_entry_with self.old.state command.now sbs.now (object_named sbs.now self.old.state.objects.sbsds)).state) }
        ensures marks { OnOk result (self.new.marks ≡ self.old.marks) }
        ensures err { OnErr result (self.new ≡ self.old) }
    {
        let Some(description) = self.objects.sbsds.object(sbs) else {
            return Ok(Reply::No(Refusal::NoObject(Kind::Pje)));
        };
        let Some(entry) = description.pres.get(&command.pgm) else {
            return Ok(Reply::No(Refusal::NoObject(Kind::Pje)));
        };
        let pgm = entry.pgm;
        if is_stopped(&self.stopped, sbs, &pgm) && self.parts().count_from_pre(sbs, &pgm) == 0 {
            return Ok(Reply::No(Refusal::EntryStopped));
        }
        self.end_entry(sbs, &pgm, command.option, command.delay)?;
        Ok(Reply::PreEnding)
    }

    /// ENDPJ. An `Err` is want of memory and leaves the state.
    pub(crate) fn end_prestart(&mut self, command: &Endpj) -> Result<Reply, NoMemory>
        requires line { AreInLine self.old.state.next_serial self.old.state.jobs }
        ensures reply { IfOk result (λ r. r ≡ (end_prestart self.old.state command.now).reply) }
        ensures state { OnOk result (self.new.state ≡ (end_prestart self.old.state command.now).state) }
        ensures marks { OnOk result (self.new.marks ≡ self.old.marks) }
        ensures err { OnErr result (self.new ≡ self.old) }
    {
        let Some(sbs) = self.started_named(&command.sbs) else {
            return Ok(Reply::No(Refusal::SbsNotActive));
        };
        let name = sbs.sbsd;
        let reply = self.end_entry_with(&name, command)?;
        Ok(reply)
    }
}
