// A prestart job, and its entry.
use wm_base::{JobNumber, QName};

/// A prestart entry: a program in a subsystem.
#[derive(Clone, Copy, PartialEq, Eq, PartialOrd, Ord)]
pub struct PrestartEntry {
    pub sbs: QName,
    pub pgm: QName,
}

/// Whether an active prestart job can take a request: not yet, since it doesn't run; at once; or not, since it has one or is to
/// end.
#[derive(Clone, Copy)]
pub enum Readiness {
    Coming,
    Idle,
    Taken,
}

/// An active prestart job: its entry, its number, and whether it can take a request.
#[derive(Clone, Copy)]
pub struct PrestartJob {
    pub entry: PrestartEntry,
    pub number: JobNumber,
    pub readiness: Readiness,
}

impl Readiness {
    ghost use Rattle.std.specs.Prelude.{◌≡◌};
    ghost use Rattle.wm_indexes.specs.Ready.{is_available, is_idle};

    /// Whether it counts as available: it can take a request, now or once it runs.
    pub fn is_available(&self) -> bool
        ensures { result ≡ is_available self.now }
    {
        matches!(self, Readiness::Coming | Readiness::Idle)
    }

    pub fn is_idle(&self) -> bool
        ensures { result ≡ is_idle self.now }
    {
        matches!(self, Readiness::Idle)
    }
}
