// Why a call of a monitor ended early.
ghost use Rattle.std.specs.Prelude.{◌≡◌};
ghost use Rattle.wm_floor.specs.declared.monitor_fault.MonitorFault.TheVariants.{WaitFault};

use wm_traits::Failed;

/// Why a turn or a wait of a monitor ended early.
#[derive(Clone, Copy)]
pub enum MonitorFault {
    /// A kill or a look of the spawner failed.
    WaitFault,
    /// The keeper of the rows failed.
    KeeperFault,
    /// The history has this many entries, which are 4,000,000, behind which the floor takes no call of a monitor.
    LogFull(u32),
    NoMemory,
}

impl From<Failed> for MonitorFault {
    ghost from_gives = { λ _ e. e ≡ WaitFault };

    fn from(_e: Failed) -> MonitorFault {
        MonitorFault::WaitFault
    }
}
