// Numbers that keep a range.
ghost use Rattle.std.specs.Prelude.{◌≡◌, ◌≤◌, ◌<◌, ◌^◌, Some};
ghost use Rattle.std.specs.Fmt.{decimal};

use std::fmt;
use std::marker::Model;

/// A job's number, 1 to 999999.
#[derive(Clone, Copy, Debug, PartialEq, Eq, PartialOrd, Ord)]
pub struct JobNumber {
    number: u32,
}

impl Model for JobNumber {
    ghost use Rattle.std.specs.Prelude.{ℕ, ◌≤◌};

    ghost Value = { ℕ };

    ghost view = { λ n. n.number };

    ghost invariant = { λ n. (1 ≤ n.number) × (n.number ≤ 999999) };

    ghost inverse = { λ n. record { number = n } };
}

impl JobNumber {
    /// The greatest job number.
    pub const MAX: u32 = 999_999;

    pub fn new(number: u32) -> JobNumber
        requires least { 1 ≤ number }
        requires greatest { number ≤ 999999 }
        ensures { result ≡ number }
    {
        JobNumber { number }
    }

    pub fn get(self) -> u32
        ensures value { result ≡ self }
        ensures least { 1 ≤ self }
        ensures greatest { self ≤ 999999 }
    {
        self.number
    }
}

impl fmt::Display for JobNumber {
    ghost use Rattle.wm_base.specs.Number.{zero_padded};

    ghost output = { λ n. Some (zero_padded 6 n) };

    #[tactic(auto, using(crate::proofs::Numbers::padded))]
    fn fmt<W: fmt::Write>(&self, f: &mut fmt::Formatter<W>) -> fmt::Result {
        write!(f, "{:06}", self.number)
    }
}

/// A job's serial, which no other job of the store has. Serials begin at 1.
#[derive(Clone, Copy, Debug, PartialEq, Eq, PartialOrd, Ord)]
pub struct Serial {
    serial: u64,
}

impl Model for Serial {
    ghost use Rattle.std.specs.Prelude.{ℕ};

    ghost Value = { ℕ };

    ghost view = { λ s. s.serial };

    ghost inverse = { λ n. record { serial = n } };
}

impl Serial {
    pub fn new(serial: u64) -> Serial
        ensures { result ≡ serial }
    {
        Serial { serial }
    }

    pub fn get(self) -> u64
        ensures value { result ≡ self }
        ensures range { self < 2 ^ 64 }
    {
        self.serial
    }
}

impl fmt::Display for Serial {
    ghost output = { λ n. Some (decimal n) };

    fn fmt<W: fmt::Write>(&self, f: &mut fmt::Formatter<W>) -> fmt::Result {
        write!(f, "{}", self.serial)
    }
}

/// A job's priority on its queue, 1 to 9, of which 1 goes first.
#[derive(Clone, Copy, Debug, PartialEq, Eq, PartialOrd, Ord)]
pub struct Priority {
    priority: u8,
}

impl Model for Priority {
    ghost use Rattle.std.specs.Prelude.{ℕ, ◌≤◌};

    ghost Value = { ℕ };

    ghost view = { λ p. p.priority };

    ghost invariant = { λ p. (1 ≤ p.priority) × (p.priority ≤ 9) };

    ghost inverse = { λ n. record { priority = n } };
}

impl Priority {
    pub fn new(priority: u8) -> Priority
        requires least { 1 ≤ priority }
        requires greatest { priority ≤ 9 }
        ensures { result ≡ priority }
    {
        Priority { priority }
    }

    pub fn get(self) -> u8
        ensures value { result ≡ self }
        ensures least { 1 ≤ self }
        ensures greatest { self ≤ 9 }
    {
        self.priority
    }
}

impl fmt::Display for Priority {
    ghost output = { λ n. Some (decimal n) };

    fn fmt<W: fmt::Write>(&self, f: &mut fmt::Formatter<W>) -> fmt::Result {
        write!(f, "{}", self.priority)
    }
}

/// A moment in seconds from 1970-01-01T00:00:00Z, at most the last second of 9999-12-30.
#[derive(Clone, Copy, Debug, PartialEq, Eq, PartialOrd, Ord)]
pub struct Moment {
    seconds: u64,
}

impl Model for Moment {
    ghost use Rattle.std.specs.Prelude.{ℕ, ◌≤◌};

    ghost Value = { ℕ };

    ghost view = { λ m. m.seconds };

    ghost invariant = { λ m. m.seconds ≤ 253402214399 };

    ghost inverse = { λ n. record { seconds = n } };
}

impl Moment {
    /// The greatest moment.
    pub const MAX: u64 = 253_402_214_399;

    pub fn new(seconds: u64) -> Moment
        requires { seconds ≤ 253402214399 }
        ensures { result ≡ seconds }
    {
        Moment { seconds }
    }

    pub fn get(self) -> u64
        ensures value { result ≡ self }
        ensures range { self ≤ 253402214399 }
    {
        self.seconds
    }
}

impl fmt::Display for Moment {
    ghost output = { λ n. Some (decimal n) };

    fn fmt<W: fmt::Write>(&self, f: &mut fmt::Formatter<W>) -> fmt::Result {
        write!(f, "{}", self.seconds)
    }
}
