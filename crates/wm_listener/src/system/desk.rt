// A desk at a listener of the system.
ghost use Rattle.std.specs.Prelude.{Some, None, if◌then◌else◌};

use crate::Desk;

/// A desk that counts, and tells no connections.
#[derive(Drop)]
pub struct SysDesk {
    pub(crate) holds: bool,
    pub(crate) faults: u64,
    pub(crate) dries: u64,
}

impl SysDesk {
    ghost use Rattle.std.specs.Prelude.{◌≡◌, false};

    /// A desk that has had nothing.
    pub fn new() -> SysDesk
        ensures holds { result.holds ≡ false }
        ensures faults { result.faults ≡ 0 }
        ensures dries { result.dries ≡ 0 }
    {
        SysDesk {
            holds: false,
            faults: 0,
            dries: 0,
        }
    }
}

impl Desk for SysDesk {
    ghost use Rattle.wm_listener.specs.System.{sys_hand};

    ghost faults = { λ d. d.faults };

    ghost dries = { λ d. d.dries };

    ghost hand = { sys_hand };

    ghost had = { λ _. None };
}
