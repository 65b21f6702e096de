// How far local time is ahead of UTC.
use std::marker::Model;

/// How many minutes local time is ahead of UTC, -1439 to 1439. This is the project's own profile: an offset is fixed.
#[derive(Clone, Copy)]
pub struct Offset {
    minutes: i32,
}

impl Model for Offset {
    ghost use Rattle.std.specs.Prelude.{ℤ};
    ghost use Rattle.wm_when.specs.Due.{IsOffset};

    ghost Value = { ℤ };

    ghost view = { λ o. o.minutes };

    ghost invariant = { λ o. IsOffset o.minutes };

    ghost inverse = { λ n. record { minutes = n } };
}

impl Offset {
    ghost use Rattle.std.specs.Prelude.{◌≡◌};
    ghost use Rattle.wm_when.specs.Due.{IsOffset};

    pub fn new(minutes: i32) -> Offset
        requires { IsOffset minutes }
        ensures { result ≡ minutes }
    {
        Offset { minutes }
    }

    pub fn minutes(self) -> i32
        ensures value { result ≡ self }
        ensures range { IsOffset result }
    {
        self.minutes
    }
}
