// Numbers that a seed draws.
ghost use Rattle.std.specs.Prelude.{◌<◌};

/// Draws numbers that look like chance, the same ones of the same seed: Knuth's generator of MMIX.
#[derive(Drop)]
pub struct Draw {
    state: u64,
}

impl Draw {
    pub fn new(seed: u64) -> Draw {
        Draw { state: seed }
    }

    /// A number below another.
    pub fn below(&mut self, most: u32) -> u32
        requires { 0 < most }
        ensures { result < most }
    {
        self.state = self
            .state
            .wrapping_mul(6_364_136_223_846_793_005)
            .wrapping_add(1_442_695_040_888_963_407);
        ((self.state >> 33) % u64::from(most)) as u32
    }
}
