// A spawner in memory of which no call fails.
ghost use Rattle.std.specs.Prelude.{◌≡◌, [], Some};
ghost use Rattle.wm_outside.specs.MemSpawner.{spawner_kills, spawner_looks, spawner_starts};
ghost use Rattle.wm_runs.specs.Unfailing.{NeverFails};

use std::alloc::Global;
use std::sync::Wait;
use wm_base::{Event, Moment, Serial, StartOrder};
use wm_outside::MemSpawner;
use wm_traits::{Failed, Spawner, StartFault};

/// A spawner in memory of which no call fails but a start for want of memory.
#[derive(Drop)]
pub struct SteadySpawner {
    spawner: MemSpawner,
    ghost starts: { NeverFails (spawner_starts spawner) },
    ghost kills: { NeverFails (spawner_kills spawner) },
    ghost looks: { NeverFails (spawner_looks spawner) },
}

impl SteadySpawner {
    ghost use Rattle.wm_outside.specs.MemSpawner.{spawner_asked, spawner_lag, spawner_told};

    /// A spawner whose children end after so many looks.
    pub fn new(alloc: Global, lag: u32) -> SteadySpawner
        ensures lag { spawner_lag result.spawner ≡ lag }
        ensures asked { spawner_asked result.spawner ≡ Some [] }
        ensures told { spawner_told result.spawner ≡ Some [] }
    {
        SteadySpawner {
            spawner: MemSpawner::new(
                alloc,
                lag,
                Vec::new(alloc),
                Vec::new(alloc),
                Vec::new(alloc),
            ),
        }
    }
}

impl Spawner for SteadySpawner {
    ghost use Rattle.wm_outside.specs.MemSpawner.{spawner_asked, spawner_awaited, spawner_out, spawner_reporting, spawner_told};
    ghost use Rattle.wm_outside.specs.Children.{serials};
    ghost use Rattle.wm_outside.specs.Reporting.{reporting_among};
    ghost use Rattle.wm_traits.specs.Cause.{raised};
    ghost use Rattle.wm_traits.specs.Told.{told_with_out};

    ghost misses = { λ _. 0 };

    ghost faults = { λ _. 0 };

    ghost asked = { λ s. spawner_asked s.spawner };

    ghost out = { λ s. spawner_out s.spawner };

    ghost told = { λ s. spawner_told s.spawner };

    ghost reporting = { λ s. spawner_reporting s.spawner };

    ghost awaited = { λ s. spawner_awaited s.spawner };

    #[tactic(auto, using(crate::proofs::Unfailing::started_cause))]
    fn start(&mut self, order: &StartOrder) -> Result<(), StartFault> {
        self.spawner.start(order)
    }

    #[tactic(auto, using(crate::proofs::Unfailing::steady_cause))]
    fn kill(&mut self, job: Serial) -> Result<bool, Failed> {
        self.spawner.kill(job)
    }

    #[tactic(auto, using(crate::proofs::Unfailing::steady_cause))]
    fn ended(&mut self) -> Result<Option<Event>, Failed> {
        self.spawner.ended()
    }

    #[tactic(auto, using(crate::proofs::Unfailing::steady_cause))]
    fn wait_ended<W: Wait>(
        &mut self,
        rt: &W,
        until: Option<Moment>,
    ) -> Result<Option<Event>, Failed> {
        self.spawner.wait_ended(rt, until)
    }

    ghost told_with_out = { λ s. told_with_out s.spawner.tells s.spawner.told.items (serials s.spawner.children) };

    ghost reporting_are_out = { λ s. reporting_among s.spawner.tells (raised s.spawner.looks.made) s.spawner.children };
}
