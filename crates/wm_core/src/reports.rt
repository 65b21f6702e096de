// What monitors call: the next order, and their reports.
ghost use Rattle.std.specs.Prelude.{◌≡◌};
ghost use Rattle.wm_law.specs.Reports.{phase_word, is_handed_to, is_run_by, is_unused, exit_cause, end_cause};

use crate::Machine;
use std::alloc::Global;
use wm_base::{Asked, EndCause, Exit, How, NoMemory, PhaseWord, Refusal, Serial, StartCause};
use wm_law::{Boxed, Call, Job, Phase, Reply, Wish};
use wm_subsystems::{add_stop, handed_wish, is_now, now_cause};

/// What a job's phase is called in a refusal.
pub(crate) fn phase_word(phase: &Phase) -> PhaseWord
    ensures { result ≡ phase_word phase.now }
{
    match phase {
        Phase::Waiting => PhaseWord::Waiting,
        Phase::Starting => PhaseWord::Starting,
        Phase::Handed(_) | Phase::Running(_) => PhaseWord::Active,
        Phase::Ended(_) => PhaseWord::Ended,
    }
}

fn is_handed_to(monitor: u32, phase: &Phase) -> bool
    ensures { result ≡ is_handed_to monitor phase.now }
{
    match phase {
        Phase::Handed(n) => *n == monitor,
        _ => false,
    }
}

pub(crate) fn is_run_by(monitor: u32, phase: &Phase) -> bool
    ensures { result ≡ is_run_by monitor phase.now }
{
    match phase {
        Phase::Running(n) => *n == monitor,
        _ => false,
    }
}

// The cause of an end that nobody wished.
fn exit_cause(exit: &Exit) -> EndCause
    ensures { result ≡ exit_cause exit.now }
{
    match exit {
        Exit::Code(0) => EndCause::Completed,
        Exit::Code(code) => EndCause::Exited(*code),
        Exit::Killed => EndCause::Killed,
    }
}

// The cause of an end: that of a wish to end now, else that of the exit.
fn end_cause(exit: &Exit, wish: &Wish) -> EndCause
    ensures { result ≡ end_cause exit.now wish.now }
{
    match now_cause(wish) {
        Some(cause) => cause,
        None => exit_cause(exit),
    }
}

// Whether a job was never used, and isn't to end now.
fn is_unused(job: &Job) -> bool
    ensures { result ≡ is_unused job.now }
{
    job.uses == 0 && !is_now(&job.wish)
}

impl Machine {
    ghost use Rattle.std.specs.Prelude.{◌≡◌, ◌==◌, true, false, find, IfSome, OnOk, OnErr, IfOk};
    ghost use Rattle.wm_law.specs.Counts.{is_active, is_starting, is_waiting};
    ghost use Rattle.wm_core.specs.Moved.{moved_on};
    ghost use Rattle.wm_law.specs.Reports.{hand, hand_start, report, is_handed_to};
    ghost use Rattle.wm_law.specs.Sound.{IsSound};
    ghost use Rattle.wm_law.specs.Machine.{apply};

    /// Hand: the kill of least serial is handed to the monitor; where there is none, the start of least serial. An `Err`
    /// leaves the state.
    pub(crate) fn hand(&mut self, alloc: Global, monitor: u32) -> Result<Reply, NoMemory>
        requires { IsSound self.old.state }
        ensures reply { IfOk result (λ r. r ≡ (hand self.old.state monitor).reply) }
        ensures state { OnOk result (self.new.state ≡ (hand self.old.state monitor).state) }
        ensures marks { OnOk result (self.new.marks ≡ self.old.marks) }
        ensures err { OnErr result (self.new ≡ self.old) }
    {
        let Some(job) = self.table.first_kill(monitor) else {
            return self.hand_start(alloc, monitor);
        };
        let serial = job.serial;
        let wish = handed_wish(&job.wish);
        let asked = Boxed::new(alloc, Asked::Kill(serial))?;
        self.table.reserve(0)?;
        self.table.set_wish(serial, wish);
        Ok(Reply::Order(asked))
    }

    // The Starting job of least serial is handed to the monitor.
    fn hand_start(&mut self, alloc: Global, monitor: u32) -> Result<Reply, NoMemory>
        ensures reply { IfOk result (λ r. r ≡ (hand_start self.old.state monitor).reply) }
        ensures state { OnOk result (self.new.state ≡ (hand_start self.old.state monitor).state) }
        ensures marks { OnOk result (self.new.marks ≡ self.old.marks) }
        ensures err { OnErr result (self.new ≡ self.old) }
    {
        let Some(job) = self.table.first_starting() else {
            return Ok(Reply::Nothing);
        };
        let serial = job.serial;
        let Some(order) = self.parts().order_of(alloc, job)? else {
            return Ok(Reply::Nothing);
        };
        let asked = Boxed::new(alloc, Asked::Start(order))?;
        self.table.reserve(0)?;
        self.table.set_phase(serial, Phase::Handed(monitor));
        Ok(Reply::Order(asked))
    }

    // The job of a serial, which is active, comes into a phase, and its prestart entry is stopped where that is said.
    fn move_on(
        &mut self,
        serial: Serial,
        phase: Phase,
        how: &How,
        stops: bool,
    ) -> Result<(), NoMemory>
        requires active { IfSome (find (λ j. j.serial == serial) self.old.state.jobs) (λ j. is_active j.phase ≡ true) }
        requires waits { is_waiting phase ≡ false }
        requires starts { is_starting phase ≡ false }
        ensures ok { OnOk result (self.new.state ≡ moved_on self.old.state serial phase how.now stops) }
        ensures marks { OnOk result (self.new.marks ≡ self.old.marks) }
        ensures err { OnErr result (self.new ≡ self.old) }
    {
        self.table.reserve(0)?;
        if stops {
            add_stop(&mut self.stopped, how)?;
        }
        self.table.set_phase(serial, phase);
        Ok(())
    }

    // A report on a job that was handed to the monitor, which it moves on. It stops the job's prestart entry where that is said.
    fn report_handed(
        &mut self,
        monitor: u32,
        serial: Serial,
        phase: Phase,
        stops: bool,
    ) -> Result<Reply, NoMemory>
        requires waits { is_waiting phase ≡ false }
        requires starts { is_starting phase ≡ false }
        ensures reply { IfOk result (λ r. r ≡ (report self.old.state serial (is_handed_to monitor) (λ _. phase) (λ _. stops)).reply) }
        ensures state { OnOk result (self.new.state ≡ (report self.old.state serial (is_handed_to monitor) (λ _. phase) (λ _. stops)).state) }
        ensures marks { OnOk result (self.new.marks ≡ self.old.marks) }
        ensures err { OnErr result (self.new ≡ self.old) }
    {
        let Some(job) = self.table.job(serial) else {
            return Ok(Reply::No(Refusal::NoJob));
        };
        if !is_handed_to(monitor, &job.phase) {
            return Ok(Reply::No(Refusal::WrongPhase(phase_word(&job.phase))));
        }
        let how = job.how;
        self.move_on(serial, phase, &how, stops)?;
        Ok(Reply::Noted)
    }

    /// Started: the job that was handed to the monitor runs. An `Err` leaves the state, here and in the reports below.
    pub(crate) fn report_started(&mut self, monitor: u32, serial: Serial) -> Result<Reply, NoMemory>
        ensures reply { IfOk result (λ r. r ≡ (apply self.old.state monitor (Call.Started serial)).reply) }
        ensures state { OnOk result (self.new.state ≡ (apply self.old.state monitor (Call.Started serial)).state) }
        ensures marks { OnOk result (self.new.marks ≡ self.old.marks) }
        ensures err { OnErr result (self.new ≡ self.old) }
    {
        self.report_handed(monitor, serial, Phase::Running(monitor), false)
    }

    /// StartFailed: the job that was handed to the monitor has ended. A prestart job stops its entry.
    pub(crate) fn report_start_failed(
        &mut self,
        monitor: u32,
        serial: Serial,
        cause: StartCause,
    ) -> Result<Reply, NoMemory>
        ensures reply { IfOk result (λ r. r ≡ (apply self.old.state monitor (Call.StartFailed serial cause)).reply) }
        ensures state { OnOk result (self.new.state ≡ (apply self.old.state monitor (Call.StartFailed serial cause)).state) }
        ensures marks { OnOk result (self.new.marks ≡ self.old.marks) }
        ensures err { OnErr result (self.new ≡ self.old) }
    {
        self.report_handed(
            monitor,
            serial,
            Phase::Ended(EndCause::StartFailed(cause)),
            true,
        )
    }

    /// Finished: the job that the monitor runs has ended. A prestart job that was never used stops its entry.
    pub(crate) fn report_finished(
        &mut self,
        monitor: u32,
        serial: Serial,
        exit: &Exit,
    ) -> Result<Reply, NoMemory>
        ensures reply { IfOk result (λ r. r ≡ (apply self.old.state monitor (Call.Finished serial exit.now)).reply) }
        ensures state { OnOk result (self.new.state ≡ (apply self.old.state monitor (Call.Finished serial exit.now)).state) }
        ensures marks { OnOk result (self.new.marks ≡ self.old.marks) }
        ensures err { OnErr result (self.new ≡ self.old) }
    {
        let Some(job) = self.table.job(serial) else {
            return Ok(Reply::No(Refusal::NoJob));
        };
        if !is_run_by(monitor, &job.phase) {
            return Ok(Reply::No(Refusal::WrongPhase(phase_word(&job.phase))));
        }
        let cause = end_cause(exit, &job.wish);
        let how = job.how;
        let stops = is_unused(job);
        self.move_on(serial, Phase::Ended(cause), &how, stops)?;
        Ok(Reply::Noted)
    }
}
