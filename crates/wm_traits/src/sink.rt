// Where bytes go to.
ghost use Rattle.std.specs.Prelude.{◌≡◌, ◌≤◌, ◌<◌, ℕ, List, [], Option, length, take, IfOk, OnErr};
ghost use Rattle.wm_traits.specs.Told.{Grows};
ghost use Rattle.wm_traits.specs.Cause.{HasCause};

use crate::Failed;

/// What takes bytes in order.
pub trait Sink {
    /// How many calls failed. It never falls.
    ghost faults: { Self → ℕ };

    /// The bytes that were written, where they are told.
    ghost written: { Self → Option (List ℕ) };

    /// Writes the first bytes of the buffer, and answers how many, which may be fewer than all, and is 0 only for an
    /// empty buffer. A call that fails writes nothing.
    fn write(&mut self, buf: &[u8]) -> Result<usize, Failed>
        ensures within { IfOk result (λ n. n ≤ length buf.now) }
        ensures some { IfOk result (λ n. 0 < length buf.now → 0 < n) }
        ensures written { IfOk result (λ n. Grows (written self.old) (written self.new) (take n buf.now)) }
        ensures err { OnErr result (Grows (written self.old) (written self.new) []) }
        ensures cause { HasCause (faults self.old) (faults self.new) result };
}
