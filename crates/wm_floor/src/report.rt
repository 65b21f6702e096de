// What a monitor reports.
ghost use Rattle.std.specs.Prelude.{◌≡◌};
ghost use Rattle.wm_law.specs.Fit.{IsSerial, IsExit};

use wm_base::{Event, Exit, Serial, StartCause};
use wm_law::Call;
use wm_traits::StartFault;

/// A report: a job was started, couldn't be started, has ended, or is done with its request.
#[derive(Clone, Copy)]
pub enum Report {
    Started(Serial),
    StartFailed(Serial, StartCause),
    Finished(Serial, Exit),
    UseDone(Serial),
}

// The serial, whose range is known then.
fn known(serial: &Serial) -> Serial
    ensures value { result ≡ serial.now }
    ensures range { IsSerial result }
{
    let _ = serial.get();
    *serial
}

// The exit, whose range is known then.
fn known_exit(exit: &Exit) -> Exit
    ensures value { result ≡ exit.now }
    ensures range { IsExit result }
{
    match exit {
        Exit::Code(code) => Exit::Code(*code),
        Exit::Killed => Exit::Killed,
    }
}

impl Report {
    ghost use Rattle.wm_base.specs.declared.job.Event.{Event};
    ghost use Rattle.wm_law.specs.Fit.{IsCall};
    ghost use Rattle.wm_law.specs.declared.state.State.{State};
    ghost use Rattle.wm_floor.specs.Limit.{limit_of};
    ghost use Rattle.wm_floor.specs.Monitor.{call_of, report_event, start_cause, is_spawner_fault};
    ghost use Rattle.std.specs.Prelude.{ℕ, false};

    /// The call that makes it.
    pub fn call(&self) -> Call
        ensures call { result ≡ call_of self.now }
        ensures fit { IsCall result }
        ensures limit { (limit : ℕ) → limit_of result limit ≡ 4000000 }
    {
        match self {
            Report::Started(serial) => Call::Started(known(serial)),
            Report::StartFailed(serial, cause) => Call::StartFailed(known(serial), *cause),
            Report::Finished(serial, exit) => Call::Finished(known(serial), known_exit(exit)),
            Report::UseDone(serial) => Call::UseDone(known(serial)),
        }
    }

    /// The report of what a child told.
    pub fn of_event(event: Event) -> Report
        ensures value { result ≡ report_event event }
        ensures no_start { is_spawner_fault (call_of result) ≡ false }
    {
        match event {
            Event::Ended(serial, exit) => Report::Finished(serial, exit),
            Event::Used(serial) => Report::UseDone(serial),
        }
    }

    /// The report of a start that failed.
    pub fn of_fault(serial: Serial, fault: StartFault) -> Report
        ensures { result ≡ Report.StartFailed serial (start_cause fault) }
    {
        let cause = match fault {
            StartFault::Failed => StartCause::Spawner,
            StartFault::NoMemory => StartCause::Memory,
        };
        Report::StartFailed(serial, cause)
    }
}
