// The calls of a history once more, on a machine of its own.
ghost use Rattle.std.specs.Prelude.{◌≡◌, IfOk, pos};
ghost use Rattle.wm_law.specs.History.{IsLegal, after};
ghost use Rattle.wm_law.specs.Opening.{opening};

use std::alloc::Global;
use wm_base::NoMemory;
use wm_core::{Core, Setup};
use wm_desc::qbatch;
use wm_floor::Log;
use wm_when::Offset;

/// The machine that the calls of a history reach from the state of no rows, with local time as UTC. An `Err` is want of memory.
pub fn replayed(alloc: Global, log: &Log) -> Result<Core, NoMemory>
    requires { IsLegal (opening (pos 0)) log.now }
    ensures { IfOk result (λ core. core.state ≡ after (opening (pos 0)) log.now) }
{
    let setup = Setup {
        ctl: qbatch(),
        offset: Offset::new(0),
    };
    let mut core = Core::opening(alloc, &setup)?;
    for at in 0..log.len() {
        let Some(entry) = log.entry(at) else {
            unreachable!()
        };
        core.step(alloc, entry.caller, &entry.call, entry.moment)?;
    }
    Ok(core)
}
