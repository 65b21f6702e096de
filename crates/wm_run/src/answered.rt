// What came of a line.
ghost use Rattle.std.specs.Prelude.{◌≡◌, ◌||◌, false};

/// What came of lines: whether one of them got a fault or a refusal, and whether the last of them put the power down.
#[derive(Clone, Copy)]
pub struct Answered {
    pub faulty: bool,
    pub down: bool,
}

impl Answered {
    /// That of a line without a call.
    pub fn uncalled(faulty: bool) -> Answered
        ensures faulty { result.faulty ≡ faulty }
        ensures up { result.down ≡ false }
    {
        Answered {
            faulty,
            down: false,
        }
    }

    /// The same behind lines of which one got a fault or a refusal, or none did.
    pub fn behind(self, faulty: bool) -> Answered
        ensures faulty { result.faulty ≡ (faulty || self.faulty) }
        ensures down { result.down ≡ self.down }
    {
        Answered {
            faulty: faulty || self.faulty,
            down: self.down,
        }
    }
}
