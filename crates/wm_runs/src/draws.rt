// The numbers of a drill.
ghost use Rattle.std.specs.Prelude.{◌≡◌, ◌≤◌};

/// What a drill draws its numbers from: the last number drawn, and at first the seed.
#[derive(Clone, Copy)]
pub struct Draws {
    pub last: u64,
}

impl Draws {
    ghost use Rattle.wm_runs.specs.Draws.{drawn_below, next_draw};

    /// Draws a number below `n`.
    pub fn draw(&mut self, n: u32) -> u32
        requires { 1 ≤ n }
        ensures value { result ≡ drawn_below n self.new.last }
        ensures next { self.new.last ≡ next_draw self.old.last }
    {
        self.last = self
            .last
            .wrapping_mul(6_364_136_223_846_793_005)
            .wrapping_add(1_442_695_040_888_963_407);
        (self.last >> 33) as u32 % n
    }
}
