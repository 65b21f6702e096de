// Where bytes come from.
ghost use Rattle.std.specs.Prelude.{◌≡◌, ◌≤◌, ◌<◌, ℕ, List, [], Option, length, take, IfOk, OnErr};
ghost use Rattle.std.specs.Io.KnownBytes.{IsAtEnd};
ghost use Rattle.wm_traits.specs.Told.{Takes};
ghost use Rattle.wm_traits.specs.Cause.{HasCause};

use crate::Failed;

/// A stream of bytes that are read in order.
pub trait Source {
    /// How many calls failed. It never falls.
    ghost faults: { Self → ℕ };

    /// The bytes that are left, where they are told.
    ghost left: { Self → Option (List ℕ) };

    /// Takes the next bytes, as many as it will and the buffer has room for, into the front of the buffer, and answers
    /// how many. With a buffer that isn't empty, 0 means that the end is reached. A call that fails takes nothing.
    fn read(&mut self, buf: &mut [u8]) -> Result<usize, Failed>
        ensures within { IfOk result (λ n. n ≤ length buf.new) }
        ensures taken { IfOk result (λ n. Takes (left self.old) (take n buf.new) (left self.new)) }
        ensures end { result ≡ Ok 0 → 0 < length buf.new → IsAtEnd (left self.new) }
        ensures err { OnErr result (Takes (left self.old) [] (left self.new)) }
        ensures cause { HasCause (faults self.old) (faults self.new) result };
}
