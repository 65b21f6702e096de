// What asks the system to start programs.
ghost use Rattle.std.specs.Prelude.{◌≡◌, IfSome, IfNone, OnSome};
ghost use Rattle.wm_traits.specs.Cause.{raised};

use crate::running::Running;
use std::process::{Command, Processes, SystemProcess};
use wm_base::Serial;

/// The one place that asks std to start a program. It counts how often it asked, and how often that failed.
#[derive(Drop)]
pub struct Programs {
    asked: u64,
    failed: u64,
}

impl Programs {
    pub fn new() -> Programs {
        Programs {
            asked: 0,
            failed: 0,
        }
    }

    /// Asks once. It is None where that failed.
    pub fn start<R: Processes<Started = SystemProcess>>(
        &mut self,
        rt: &R,
        command: &mut Command,
        serial: Serial,
    ) -> Option<Running>
        ensures serial { IfSome result (λ running. running.serial ≡ serial) }
        ensures asked { self.new.asked ≡ raised self.old.asked }
        ensures failed { IfNone result (self.new.failed ≡ raised self.old.failed) }
        ensures left { OnSome result (self.new.failed ≡ self.old.failed) }
    {
        self.asked = self.asked.saturating_add(1);
        let Ok(child) = command.spawn(rt) else {
            self.failed = self.failed.saturating_add(1);
            return None;
        };
        Some(Running { serial, child })
    }
}
