// A worker's token at a listener.
ghost use Rattle.std.specs.Prelude.{ℕ, List, Option};
ghost use Rattle.wm_listener.specs.Had.{Had};

/// A worker's own token at a listener: what it has in hand, and what it has had.
pub trait Desk {
    /// How many of this worker's looks for a connection failed. It never falls.
    ghost faults: { Self → ℕ };

    /// How often it was told that no connection can come any more. It never falls.
    ghost dries: { Self → ℕ };

    /// Whether a connection is in hand, with what there was to read of it as it came, where that is told.
    ghost hand: { Self → Option (Option (List ℕ)) };

    /// The connections that were given back, in order, where they are told.
    ghost had: { Self → Option (List Had) };
}
