// How many entries a history takes.
ghost use Rattle.std.specs.Prelude.{◌≡◌};
ghost use Rattle.wm_floor.specs.Limit.{limit_of};

use wm_law::Call;

/// Below how many entries a call is taken, where users' commands are below a limit.
pub(crate) fn limit_of(call: &Call, limit: u32) -> u32
    ensures { result ≡ limit_of call.now limit }
{
    match call {
        Call::Change {
            user: _,
            command: _,
        } => limit,
        _ => 4_000_000,
    }
}
