// Passes.
ghost use Rattle.std.specs.Prelude.{◌≡◌, ◌<◌, ◌^◌};

use crate::standing::Standing;
use crate::view::Place;
use std::marker::Model;

/// A thread's leave to enter a turnstile, known by its number. It knows what it has seen of the history, and its own entries.
///
/// It can't be dropped: it is joined to pass 0, or the turnstile is closed with it, and neither is allowed in its turn. So a
/// turn can't be lost by dropping the pass that has it. A thread that never calls `leave` stops all others.
pub struct Pass<X: Standing> {
    pub(crate) place: Place<X>,
    pub(crate) number: u32,
    pub(crate) made: u32,
    // How many of these weren't joined.
    pub(crate) out: u32,
    // How many entries there were as its turn began.
    pub(crate) count: u64,
}

impl<X: Standing> Model for Pass<X> {
    ghost use Rattle.wm_turn.specs.Passed.{Passed};

    ghost Value = { Passed X.Opening X.Entry };

    ghost use Rattle.wm_turn.specs.Held.{turn_of, Holds};

    ghost view = { λ p. record { turnstile = p.place.table_id; number = p.number; opening = p.place.me.0.opening; seen = p.place.me.0.seen; mine = p.place.me.0.mine; mark = p.place.me.0.mark; turn = turn_of p.place.me.0.stage; made = p.made; joined = p.place.me.0.joined } };

    ghost invariant = { λ p. Holds p.place.me p.number p.made p.out p.count };
}

impl<X: Standing> Pass<X> {
    /// Its number.
    pub fn number(&self) -> u32
        ensures value { result ≡ self.now.number }
        ensures range { self.now.number < 2 ^ 32 }
    {
        self.number
    }
}
