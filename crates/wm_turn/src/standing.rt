// What a turnstile asks of its value.
ghost use Rattle.std.specs.Prelude.{◌≡◌, ◌≢◌, ◌<◌, ◌^◌, ◌++◌, ◌↔◌, ℕ, List, length, IsTrue};

/// A value that stands for a list of entries which follow an opening value. Each entry was made by a pass, whose number it has.
pub trait Standing {
    /// What the entries follow, as plain data. No value of it is made.
    type Opening;

    /// What the list has, as plain data. No value of it is made.
    type Entry;

    ghost opening: { Self → Self.Opening };

    ghost stands: { Self → List Self.Entry };

    // A number that the holder of a turn never lessens.
    ghost mark: { Self → ℕ };

    // The number of the pass that made the entry.
    ghost by: { Self.Entry → ℕ };

    // What holds of an opening value and the list of entries that follow it.
    ghost fact: { Self.Opening → List Self.Entry → Type 0 };

    /// How many entries it stands for.
    fn entries(&self) -> u64
        requires { length (stands self.now) < 2 ^ 64 }
        ensures { result ≡ length (stands self.now) };

    /// True where its mark isn't 0.
    fn marked(&self) -> bool
        ensures { IsTrue result ↔ (mark self.now ≢ 0) };

    // What a value stands for meets the fact.
    ghost meets: { (value : Self) → fact (opening value) (stands value) };

    // And so does each front of a list that meets it.
    ghost fronts: { (first : Self.Opening) (front rest : List Self.Entry) → fact first (front ++ rest) → fact first front };
}
