// A child that was waited for.
ghost use Rattle.std.specs.Prelude.{◌≡◌, ◌<◌, ℕ, pos, None, Some};
ghost use Rattle.std.specs.Option.{ForSome};
ghost use Rattle.std.specs.Process.{exit_code};
ghost use Rattle.wm_children.specs.Programs.{HasEnded, IsExit};

use crate::running::Running;
use std::process::ExitStatus;
use wm_base::{Exit, Serial};

/// A child that was waited for, and how it ended, or nothing where the system couldn't tell. It is what a waiter sends.
#[derive(Drop)]
pub struct Finished {
    pub running: Running,
    pub exit: Option<Exit>,
    ghost told: { ForSome exit (λ exit. HasEnded running exit) },
}

impl Finished {
    /// The job that the child was started for.
    pub fn serial(&self) -> Serial
        ensures { result ≡ self.now.running.serial }
    {
        self.running.serial
    }

    /// How it ended.
    pub fn exit(&self) -> Option<Exit>
        ensures { result ≡ self.now.exit }
    {
        self.exit
    }
}

// An exit code, or else a signal ended it.
fn exit_of(status: ExitStatus) -> Exit
    ensures code { (code : ℕ) → exit_code status ≡ Some (pos code) → code < 256 → result ≡ Exit.Code code }
    ensures signal { exit_code status ≡ None → result ≡ Exit.Killed }
    ensures exit { IsExit status result }
{
    let code = status.code().and_then(|code| u8::try_from(code).ok());
    code.map_or(Exit::Killed, Exit::Code)
}

/// Waits for a child, by blocking on it.
pub fn finish(mut running: Running) -> Finished
    ensures serial { result.running.serial ≡ running.serial }
{
    match running.child.wait() {
        Ok(status) => Finished {
            running,
            exit: Some(exit_of(status)),
        },
        Err(_) => Finished {
            running,
            exit: None,
        },
    }
}
