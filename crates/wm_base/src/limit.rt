// Limits.
ghost use Rattle.std.specs.Prelude.{◌≡◌, Some};

use std::fmt;

/// A limit, or none (*NOMAX).
#[derive(Clone, Copy, Debug)]
pub enum Limit {
    NoMax,
    Most(u32),
}

impl Limit {
    ghost use Rattle.wm_base.specs.Limit.{is_below};

    /// Whether a count is below the limit. *NOMAX is never reached.
    pub fn admits(&self, count: usize) -> bool
        ensures { result ≡ is_below count self.now }
    {
        match self {
            Limit::NoMax => true,
            Limit::Most(most) => count < *most as usize,
        }
    }
}

impl fmt::Display for Limit {
    ghost use Rattle.wm_base.specs.Limit.{limit_text};

    ghost output = { λ limit. Some (limit_text limit) };

    fn fmt<W: fmt::Write>(&self, f: &mut fmt::Formatter<W>) -> fmt::Result {
        match self {
            Limit::NoMax => f.write_str("*NOMAX"),
            Limit::Most(most) => write!(f, "{most}"),
        }
    }
}
