// Whether the system takes work, and how far the power is down.
ghost use Rattle.std.specs.Prelude.{◌≡◌};
ghost use Rattle.wm_law.specs.Endings.{down_by, is_down};
ghost use Rattle.wm_law.specs.Power.{is_on, is_down_now};

use wm_law::{EndOption, Power};

/// Whether the system takes work.
pub fn is_on(power: &Power) -> bool
    ensures { result ≡ is_on power.now }
{
    matches!(power, Power::On)
}

fn is_down_now(power: &Power) -> bool
    ensures { result ≡ is_down_now power.now }
{
    matches!(power, Power::DownNow)
}

/// Whether the power is down as far already as the option would bring it.
pub fn is_down(option: EndOption, power: &Power) -> bool
    ensures { result ≡ is_down option power.now }
{
    match option {
        EndOption::Cntrld => !is_on(power),
        EndOption::Immed => is_down_now(power),
    }
}

/// How far an option brings the power down.
pub fn down_by(option: EndOption) -> Power
    ensures { result ≡ down_by option }
{
    match option {
        EndOption::Cntrld => Power::Down,
        EndOption::Immed => Power::DownNow,
    }
}
