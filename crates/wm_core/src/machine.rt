// A step of the machine: the clock is set, the call is applied, what is due ends, and the state settles.
use crate::mark::Mark;
use std::alloc::Global;
use std::marker::Model;
use wm_base::{Moment, Name, NoMemory};
use wm_desc::Objects;
use wm_jobs::JobTable;
use wm_law::{Call, Command, Evokes, Power, QNames, Reply, SbsList, Stops};
use wm_pick::Parts;
use wm_when::Offset;

/// The machine in one state. The jobs, their next numbers and the clock are in the job table, all else is plain data.
/// A contract sees the state, and what is kept of the state before the last step.
pub struct Machine {
    pub objects: Objects,
    pub started: SbsList,
    pub held: QNames,
    pub stopped: Stops,
    pub evokes: Evokes,
    pub next_number: u32,
    pub offset: Offset,
    pub power: Power,
    pub(crate) table: JobTable,
    pub(crate) mark: Mark,
}

// It is written out, so that a caller does not prove again how each part is dropped.
impl Drop for Machine {
    fn drop(self) {
        let Machine {
            objects: _,
            started: _,
            held: _,
            stopped: _,
            evokes: _,
            next_number: _,
            offset: _,
            power: _,
            table: _,
            mark: _,
        } = self;
    }
}

impl Model for Machine {
    ghost use Rattle.wm_core.specs.MachineInside.{Seen};

    ghost Value = { Seen };

    ghost use Rattle.wm_core.specs.MachineInside.{seen_of, IsMachineInside};

    ghost view = { seen_of };

    ghost invariant = { IsMachineInside };
}

impl Machine {
    ghost use Rattle.std.specs.Prelude.{◌≡◌, true, false, OnOk, OnErr, IfOk};
    ghost use Rattle.wm_law.specs.CallKinds.{configures};
    ghost use Rattle.wm_law.specs.Fit.{IsCall, IsCommand};
    ghost use Rattle.wm_pick.specs.Parts.{parts_of};
    ghost use Rattle.wm_law.specs.Machine.{change, apply, step, with_clock};
    ghost use Rattle.wm_law.specs.Sound.{HasNoneDue, IsSound};
    ghost use Rattle.wm_subsystems.specs.Walks.{AreInLine};
    ghost use Rattle.wm_core.specs.Aside.{aside_of};
    ghost use Rattle.wm_core.specs.Marks.{marks_at};

    /// The jobs, and what they are found by.
    pub fn jobs(&self) -> &JobTable
        ensures jobs { result.now.jobs ≡ self.now.state.jobs }
        ensures clock { result.now.clock ≡ self.now.state.clock }
        ensures next_serial { result.now.next_serial ≡ self.now.state.next_serial }
        ensures next_place { result.now.next_place ≡ self.now.state.next_place }
        ensures marked { result.now.marked ≡ self.now.marks.jobs }
    {
        &self.table
    }

    /// The parts that a choice looks at.
    pub fn parts(&self) -> Parts<'_>
        ensures { result ≡ parts_of self.now.state }
    {
        Parts::new(
            &self.objects,
            self.table.jobs(),
            &self.started,
            &self.held,
            self.table.waiting(),
            self.table.tally(),
            self.table.clock(),
        )
    }

    // Sets the clock, which never goes back.
    fn set_clock(&mut self, now: Moment)
        ensures state { self.new.state ≡ with_clock self.old.state now }
        ensures marks { self.new.marks ≡ self.old.marks }
    {
        self.table.make_due(now);
    }

    /// Applies a command that changes objects or held queues. An `Err` is want of memory and leaves the machine.
    pub(crate) fn configure(
        &mut self,
        alloc: Global,
        user: &Name,
        command: &Command,
    ) -> Result<Reply, NoMemory>
        requires ranges { IsCommand command.now }
        requires configures { configures command.now ≡ true }
        ensures reply { IfOk result (λ r. r ≡ (change self.old.state user.now command.now).reply) }
        ensures state { OnOk result (self.new.state ≡ (change self.old.state user.now command.now).state) }
        ensures marks { OnOk result (self.new.marks ≡ self.old.marks) }
        ensures err { OnErr result (self.new ≡ self.old) }
    {
        match command {
            Command::Crtcls(_)
            | Command::Crtjobq(_)
            | Command::Crtpgmref(_)
            | Command::Crtjobd(_)
            | Command::Crtsbsd(_)
            | Command::Addjobqe(_)
            | Command::Addrtge(_)
            | Command::Addaje(_)
            | Command::Rmvjobqe(_)
            | Command::Rmvrtge(_)
            | Command::Rmvaje(_)
            | Command::Addpje(_)
            | Command::Rmvpje(_) => self.change_objects(alloc, command),
            Command::Hldjobq(command) => self.hold_queue(&command.jobq),
            Command::Rlsjobq(command) => Ok(self.release_queue(&command.jobq)),
            _ => unreachable!(),
        }
    }

    // Applies a command of a user. An `Err` is want of memory, perhaps in the middle.
    fn change(&mut self, alloc: Global, user: &Name, command: &Command) -> Result<Reply, NoMemory>
        requires ranges { IsCommand command.now }
        requires line { AreInLine self.old.state.next_serial self.old.state.jobs }
        ensures reply { IfOk result (λ r. r ≡ (change self.old.state user.now command.now).reply) }
        ensures state { OnOk result (self.new.state ≡ (change self.old.state user.now command.now).state) }
        ensures aside { OnErr result (aside_of self.new.state ≡ aside_of self.old.state) }
        ensures marks { self.new.marks ≡ self.old.marks }
    {
        match command {
            Command::Strsbs(command) => self.start_subsystem(alloc, &command.sbsd),
            Command::Endsbs(command) => self.end_subsystem(command),
            Command::Sbmjob(command) => self.submit(alloc, user, command),
            Command::Hldjob(command) => self.hold_job(&command.job),
            Command::Rlsjob(command) => self.release_job(&command.job),
            Command::Chgjob(command) => self.change_job(command),
            Command::Endjob(command) => self.end_job(command),
            Command::Clrjobq(command) => Ok(self.clear_queue(&command.jobq)),
            Command::Pwrdwnsys(command) => self.power_down(command),
            Command::Strpj(command) => self.start_prestart(alloc, command),
            Command::Endpj(command) => self.end_prestart(command),
            Command::Evoke(command) => self.evoke(user, command),
            Command::Enduse(command) => self.end_use(command),
            _ => self.configure(alloc, user, command),
        }
    }

    // The reply to a call, and the state before it settles. An `Err` is want of memory, perhaps in the middle.
    fn apply(&mut self, alloc: Global, caller: u32, call: &Call) -> Result<Reply, NoMemory>
        requires ranges { IsCall call.now }
        requires sound { IsSound self.old.state }
        ensures reply { IfOk result (λ r. r ≡ (apply self.old.state caller call.now).reply) }
        ensures state { OnOk result (self.new.state ≡ (apply self.old.state caller call.now).state) }
        ensures aside { OnErr result (aside_of self.new.state ≡ aside_of self.old.state) }
        ensures marks { self.new.marks ≡ self.old.marks }
    {
        match call {
            Call::Change { user, command } => self.change(alloc, user, command.get()),
            Call::Hand => self.hand(alloc, caller),
            Call::Started(serial) => self.report_started(caller, *serial),
            Call::StartFailed(serial, cause) => self.report_start_failed(caller, *serial, *cause),
            Call::Finished(serial, exit) => self.report_finished(caller, *serial, exit),
            Call::UseDone(serial) => self.report_use_done(caller, *serial),
            Call::Tick => Ok(Reply::Noted),
        }
    }

    /// One step from a sound state in which nothing is due. It can be taken back. An `Err` is want of memory and leaves the
    /// state.
    #[tactic(auto, unfolding(wm_law::specs::Machine::step))]
    pub(crate) fn step(
        &mut self,
        alloc: Global,
        caller: u32,
        call: &Call,
        now: Moment,
    ) -> Result<Reply, NoMemory>
        requires ranges { IsCall call.now }
        requires sound { IsSound self.old.state }
        requires none_due { HasNoneDue self.old.state }
        ensures reply { IfOk result (λ r. r ≡ (step self.old.state caller call.now now).reply) }
        ensures state { OnOk result (self.new.state ≡ (step self.old.state caller call.now now).state) }
        ensures marks { OnOk result (self.new.marks ≡ marks_at self.old.state call.now) }
        ensures err { OnErr result (self.new.state ≡ self.old.state) }
        ensures no_way_back { OnErr result (self.new.marks.mark.undoable ≡ false) }
    {
        self.mark.undoable = false;
        self.begin(alloc, call)?;
        let may_come_due = self.may_come_due(call, now);
        self.set_clock(now);
        let reply = match self.apply(alloc, caller, call) {
            Ok(reply) => reply,
            Err(fault) => {
                self.take_back();
                return Err(fault);
            }
        };
        if let Err(fault) = self.come_due(may_come_due) {
            self.take_back();
            return Err(fault);
        }
        if let Err(fault) = self.settle(alloc) {
            self.take_back();
            return Err(fault);
        }
        Ok(reply)
    }
}
