// A sink in memory.
ghost use Rattle.std.specs.Prelude.{◌≡◌, ◌≤◌, ◌<◌, ◌^◌, ◌-◌, ℕ, List, [], Some, length, take, min, is_err, IfOk, OnErr, IfSome};
ghost use Rattle.wm_traits.specs.Told.{Grows};
ghost use Rattle.wm_traits.specs.Cause.{HasCause};

use super::calls::Calls;
use std::alloc::Global;
use wm_traits::{Failed, Sink};

/// A sink that keeps what is written. Where memory is wanting to keep it, it ceases to tell, and goes on taking bytes.
#[derive(Drop)]
pub struct MemSink {
    bytes: Vec<u8>,
    tells: bool,
    most: usize,
    calls: Calls,
    ghost takes_some: { 0 < most },
}

impl MemSink {
    ghost use Rattle.wm_outside.specs.Memory.{sink_written, sink_most, sink_calls};
    ghost use Rattle.wm_outside.specs.Calls.{is_new};

    /// An empty sink, whose calls of these numbers, from 1, fail.
    pub fn new(alloc: Global, fail: Vec<u32>) -> MemSink
        ensures written { sink_written result ≡ Some [] }
        ensures most { sink_most result ≡ 2 ^ 64 - 1 }
        ensures calls { sink_calls result ≡ is_new fail }
    {
        MemSink::in_pieces(alloc, fail, usize::MAX)
    }

    /// The same, but no write takes more than `most` bytes.
    pub fn in_pieces(alloc: Global, fail: Vec<u32>, most: usize) -> MemSink
        requires { 0 < most }
        ensures written { sink_written result ≡ Some [] }
        ensures most { sink_most result ≡ most }
        ensures calls { sink_calls result ≡ is_new fail }
    {
        MemSink {
            bytes: Vec::new(alloc),
            tells: true,
            most,
            calls: Calls::new(fail),
        }
    }

    /// What was written, up to where it ceased to tell.
    pub fn bytes(&self) -> &[u8]
        ensures { IfSome (sink_written self.now) (λ written. result.now ≡ written) }
    {
        &self.bytes
    }
}

impl Sink for MemSink {
    ghost use Rattle.wm_outside.specs.Memory.{sink_written, sink_most, sink_calls};
    ghost use Rattle.wm_outside.specs.Calls.{CountsCall};

    ghost faults = { λ s. (sink_calls s).failed };

    ghost written = { sink_written };

    #[tactic(auto, using(crate::proofs::Cause::counted_cause))]
    fn write(&mut self, buf: &[u8]) -> Result<usize, Failed>
        ensures takes { IfOk result (λ n. n ≡ min (sink_most self.old) (length buf.now)) }
        ensures written { IfOk result (λ n. Grows (sink_written self.old) (sink_written self.new) (take n buf.now)) }
        ensures err { OnErr result (Grows (sink_written self.old) (sink_written self.new) []) }
        ensures calls { CountsCall (sink_calls self.old) (sink_calls self.new) (is_err result) }
        ensures most { sink_most self.new ≡ sink_most self.old }
    {
        self.calls.count()?;
        let n = self.most.min(buf.len());
        if self.tells && self.bytes.extend_from_slice(&buf[..n]).is_err() {
            self.tells = false;
        }
        Ok(n)
    }
}
