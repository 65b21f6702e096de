// Writing all of some bytes.
ghost use Rattle.std.specs.Prelude.{◌≡◌, ℕ, take, OnOk, OnErr};
ghost use Rattle.wm_traits.specs.Told.{Grows};
ghost use Rattle.wm_traits.specs.Cause.{HasCause};

use wm_traits::{Failed, Sink};

/// Writes all of the bytes, what a short write left too. After a fault the first of them are written.
pub fn write_all<O: Sink>(out: &mut O, bytes: &[u8]) -> Result<(), Failed>
    ensures ok { OnOk result (Grows (O.written out.old) (O.written out.new) bytes.now) }
    ensures err { OnErr result ((n : ℕ) × Grows (O.written out.old) (O.written out.new) (take n bytes.now)) }
    ensures cause { HasCause (O.faults out.old) (O.faults out.new) result }
{
    let mut at = 0;
    'writes: while at < bytes.len() {
        at += out.write(&bytes[at..])?;
    }
    Ok(())
}
