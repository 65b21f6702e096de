// The jobs that one reference names.
use wm_base::{Refusal, Serial};

/// How many jobs a reference names, and the sum of their serials, modulo 2^64. Where it names one alone, the sum is that
/// job's serial.
#[derive(Clone, Copy)]
pub(crate) struct Namesakes {
    count: u32,
    serials: u64,
}

impl Namesakes {
    ghost use Rattle.std.specs.Prelude.{◌≡◌, ◌+◌, ◌^◌, ◌<◌, ◌≤◌, true, nat_lt, unwrap_or};
    ghost use Rattle.wm_indexes.specs.Namesakes.{nobody, joined, parted, only};

    /// Those of a row, where there is one.
    pub(crate) fn of(row: Option<Namesakes>) -> Namesakes
        ensures { result ≡ unwrap_or row nobody }
    {
        row.unwrap_or(Namesakes {
            count: 0,
            serials: 0,
        })
    }

    /// These and one job more.
    pub(crate) fn with(self, serial: Serial) -> Namesakes
        requires { self.count + 1 < 2 ^ 32 }
        ensures { result ≡ joined true serial self }
    {
        Namesakes {
            count: self.count + 1,
            serials: self.serials.wrapping_add(serial.get()),
        }
    }

    /// These and one job less.
    pub(crate) fn without(self, serial: Serial) -> Namesakes
        requires { 1 ≤ self.count }
        ensures { result ≡ parted true serial self }
    {
        Namesakes {
            count: self.count - 1,
            serials: self.serials.wrapping_sub(serial.get()),
        }
    }

    /// Whether there is more than one.
    pub(crate) fn are_several(&self) -> bool
        ensures { result ≡ nat_lt 1 self.now.count }
    {
        self.count > 1
    }

    /// The serial of the only one: none is NOJOB, several are AMBIGUOUS with their number.
    pub(crate) fn only(&self) -> Result<Serial, Refusal>
        ensures { result ≡ only self.now }
    {
        match self.count {
            0 => Err(Refusal::NoJob),
            1 => Ok(Serial::new(self.serials)),
            several => Err(Refusal::Ambiguous(several)),
        }
    }
}
