// What a program is asked to do.
ghost use Rattle.std.specs.Prelude.{◌≡◌};
ghost use Rattle.wm_plan.specs.declared.plan.WordFault.TheVariants.{NoMemory};

use crate::PathText;
use std::alloc::{AllocError, AllocFailed};
use wm_base::{Name, QName};
use wm_when::Offset;

/// A run: where its rows are kept, its controlling subsystem, the user of its commands, how far local time is ahead of UTC,
/// and how many entries its history may have for one more command.
#[derive(Drop)]
pub struct RunPlan {
    pub store: PathText,
    pub ctl: QName,
    pub user: Name,
    pub offset: Offset,
    pub log_limit: u32,
}

/// The address that a server listens at, as its word has it. Both are this machine alone.
#[derive(Clone, Copy)]
pub enum Addr {
    /// `127.0.0.1`
    Ip,
    /// `localhost`
    Localhost,
}

/// Where a server listens. At port 0 the system chooses one.
#[derive(Clone, Copy)]
pub struct ListenAt {
    pub addr: Addr,
    pub port: u16,
}

/// A server: where it listens, how many workers answer and how many monitors start jobs, and the rest as for a run.
#[derive(Drop)]
pub struct ServePlan {
    pub listen: ListenAt,
    pub workers: u32,
    pub monitors: u32,
    pub store: PathText,
    pub ctl: QName,
    pub offset: Offset,
    pub log_limit: u32,
}

/// A drill: the seed of its commands, and how many jobs they submit.
#[derive(Clone, Copy)]
pub struct DrillPlan {
    pub seed: u64,
    pub jobs: u32,
}

/// What the words of a command line ask for.
#[derive(Drop)]
pub enum Plan {
    Run(RunPlan),
    Serve(ServePlan),
    Drill(DrillPlan),
}

/// Why words are no plan.
#[derive(Clone, Copy)]
pub enum WordFault {
    /// They are none.
    Bad,
    NoMemory,
}

impl From<AllocError> for WordFault {
    ghost from_gives = { λ _ e. e ≡ NoMemory };

    fn from(_e: AllocError) -> WordFault {
        WordFault::NoMemory
    }
}

impl<T: Drop> From<AllocFailed<T>> for WordFault {
    ghost from_gives = { λ _ e. e ≡ NoMemory };

    fn from(_e: AllocFailed<T>) -> WordFault {
        WordFault::NoMemory
    }
}
