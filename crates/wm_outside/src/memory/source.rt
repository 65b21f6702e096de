// A source in memory.
ghost use Rattle.std.specs.Prelude.{◌≡◌, ◌≤◌, ◌<◌, ◌^◌, ◌-◌, ◌++◌, ℕ, List, [], Some, length, take, min, is_err, IfOk, OnErr, vec_len};
ghost use Rattle.std.specs.Io.KnownBytes.{IsAtEnd};
ghost use Rattle.wm_traits.specs.Told.{Takes};
ghost use Rattle.wm_traits.specs.Cause.{HasCause};

use super::calls::Calls;
use wm_traits::{Failed, Source};

/// Bytes in memory as a source.
#[derive(Drop)]
pub struct MemSource {
    bytes: Vec<u8>,
    at: usize,
    most: usize,
    calls: Calls,
    ghost in_bytes: { at ≤ vec_len bytes },
    ghost gives_some: { 0 < most },
}

// Copies the first bytes, at most `most`, to the front of the buffer, and answers how many.
fn fill(buf: &mut [u8], bytes: &[u8], most: usize) -> usize
    ensures count { result ≡ min most (min (length buf.new) (length bytes.now)) }
    ensures front { take result buf.new ≡ take result bytes.now }
{
    let n = most.min(buf.len()).min(bytes.len());
    buf[..n].copy_from_slice(&bytes[..n]);
    n
}

impl MemSource {
    ghost use Rattle.wm_outside.specs.Memory.{source_left, source_most, source_calls};
    ghost use Rattle.wm_outside.specs.Calls.{is_new};

    /// A source of these bytes, whose calls of these numbers, from 1, fail.
    pub fn new(bytes: Vec<u8>, fail: Vec<u32>) -> MemSource
        ensures left { source_left result ≡ bytes.items }
        ensures most { source_most result ≡ 2 ^ 64 - 1 }
        ensures calls { source_calls result ≡ is_new fail }
    {
        MemSource::in_pieces(bytes, fail, usize::MAX)
    }

    /// The same, but no read gives more than `most` bytes.
    pub fn in_pieces(bytes: Vec<u8>, fail: Vec<u32>, most: usize) -> MemSource
        requires { 0 < most }
        ensures left { source_left result ≡ bytes.items }
        ensures most { source_most result ≡ most }
        ensures calls { source_calls result ≡ is_new fail }
    {
        MemSource {
            bytes,
            at: 0,
            most,
            calls: Calls::new(fail),
        }
    }
}

impl Source for MemSource {
    ghost use Rattle.wm_outside.specs.Memory.{source_left, source_most, source_calls};
    ghost use Rattle.wm_outside.specs.Calls.{CountsCall};

    ghost faults = { λ s. (source_calls s).failed };

    ghost left = { λ s. Some (source_left s) };

    #[tactic(auto, using(crate::proofs::Cause::counted_cause, crate::proofs::Bytes::left_in_parts))]
    fn read(&mut self, buf: &mut [u8]) -> Result<usize, Failed>
        ensures gives { IfOk result (λ n. n ≡ min (source_most self.old) (min (length buf.new) (length (source_left self.old)))) }
        ensures taken { IfOk result (λ n. source_left self.old ≡ take n buf.new ++ source_left self.new) }
        ensures err { OnErr result (source_left self.new ≡ source_left self.old) }
        ensures calls { CountsCall (source_calls self.old) (source_calls self.new) (is_err result) }
        ensures most { source_most self.new ≡ source_most self.old }
    {
        self.calls.count()?;
        let n = fill(buf, &self.bytes[self.at..], self.most);
        self.at += n;
        Ok(n)
    }
}
