// A source in memory of which no read fails.
ghost use Rattle.std.specs.Prelude.{◌≡◌, Some};
ghost use Rattle.wm_outside.specs.Memory.{source_calls};
ghost use Rattle.wm_runs.specs.Unfailing.{NeverFails};

use std::alloc::Global;
use wm_outside::MemSource;
use wm_traits::{Failed, Source};

/// Bytes in memory as a source of which no read fails.
#[derive(Drop)]
pub struct SteadySource {
    source: MemSource,
    ghost steady: { NeverFails (source_calls source) },
}

impl SteadySource {
    ghost use Rattle.wm_outside.specs.Memory.{source_left};

    pub fn new(alloc: Global, bytes: Vec<u8>) -> SteadySource
        ensures { source_left result.source ≡ bytes.items }
    {
        SteadySource {
            source: MemSource::new(bytes, Vec::new(alloc)),
        }
    }
}

impl Source for SteadySource {
    ghost use Rattle.wm_outside.specs.Memory.{source_left};

    ghost faults = { λ _. 0 };

    ghost left = { λ s. Some (source_left s.source) };

    #[tactic(auto, using(crate::proofs::Unfailing::steady_cause))]
    fn read(&mut self, buf: &mut [u8]) -> Result<usize, Failed> {
        self.source.read(buf)
    }
}
