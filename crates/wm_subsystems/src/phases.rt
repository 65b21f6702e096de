// What phases and hows of jobs say.
ghost use Rattle.std.specs.Prelude.{◌≡◌};
ghost use Rattle.wm_law.specs.Counts.{is_active, is_from_pre, is_in_sbs, is_starting};

use wm_base::{How, QName};
use wm_law::Phase;

pub(crate) fn is_active(phase: &Phase) -> bool
    ensures { result ≡ is_active phase.now }
{
    match phase {
        Phase::Waiting | Phase::Ended(_) => false,
        Phase::Starting | Phase::Handed(_) | Phase::Running(_) => true,
    }
}

pub(crate) fn is_starting(phase: &Phase) -> bool
    ensures { result ≡ is_starting phase.now }
{
    matches!(phase, Phase::Starting)
}

pub(crate) fn is_in_sbs(name: &QName, how: &How) -> bool
    ensures { result ≡ is_in_sbs name.now how.now }
{
    match how {
        How::NotYet => false,
        How::FromQueue { sbs, .. } | How::Auto { sbs, .. } | How::Pre { sbs, .. } => sbs == name,
    }
}

/// Whether a job came by the prestart entry of a subsystem for a program.
pub(crate) fn is_from_pre(name: &QName, program: &QName, how: &How) -> bool
    ensures { result ≡ is_from_pre name.now program.now how.now }
{
    match how {
        How::NotYet | How::FromQueue { .. } | How::Auto { .. } => false,
        How::Pre { sbs, pgm } => sbs == name && pgm == program,
    }
}
