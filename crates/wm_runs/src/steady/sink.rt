// A sink in memory of which no write fails.
ghost use Rattle.std.specs.Prelude.{◌≡◌, [], Some};
ghost use Rattle.wm_outside.specs.Memory.{sink_calls};
ghost use Rattle.wm_runs.specs.Unfailing.{NeverFails};

use std::alloc::Global;
use wm_outside::MemSink;
use wm_traits::{Failed, Sink};

/// A sink that keeps what is written, and of which no write fails.
#[derive(Drop)]
pub struct SteadySink {
    sink: MemSink,
    ghost steady: { NeverFails (sink_calls sink) },
}

impl SteadySink {
    ghost use Rattle.wm_outside.specs.Memory.{sink_written};

    pub fn new(alloc: Global) -> SteadySink
        ensures { sink_written result.sink ≡ Some [] }
    {
        SteadySink {
            sink: MemSink::new(alloc, Vec::new(alloc)),
        }
    }
}

impl Sink for SteadySink {
    ghost use Rattle.wm_outside.specs.Memory.{sink_written};

    ghost faults = { λ _. 0 };

    ghost written = { λ s. sink_written s.sink };

    #[tactic(auto, using(crate::proofs::Unfailing::steady_cause))]
    fn write(&mut self, buf: &[u8]) -> Result<usize, Failed> {
        self.sink.write(buf)
    }
}
