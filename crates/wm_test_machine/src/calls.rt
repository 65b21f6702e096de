// Calls of the machine, of whose answers nothing is said here: a proof above that has only these stays short.
ghost use Rattle.std.specs.Prelude.{◌≡◌, ◌<◌};
ghost use Rattle.wm_law.specs.Fit.{IsCall};

use std::alloc::Global;
use std::marker::Brand;
use std::sync::ledger::{Blank, Ledger};
use wm_base::{Moment, NoMemory, QName, Steps};
use wm_core::{Core, Machine, Setup};
use wm_desc::qbatch;
use wm_law::{Call, Candidate, Pending, Reply};
use wm_when::Offset;

/// The machine of an empty store.
pub fn opened(alloc: Global) -> Result<Core, NoMemory> {
    let setup = Setup {
        ctl: qbatch(),
        offset: Offset::new(0),
    };
    Core::opening(alloc, &setup)
}

/// The reply to a call.
pub fn reply(
    alloc: Global,
    core: &mut Core,
    caller: u32,
    call: &Call,
    now: Moment,
) -> Result<Reply, NoMemory>
    requires fit { IsCall call.now }
{
    core.step(alloc, caller, call, now)
}

/// What waits for the monitor of pass 1.
pub fn pending(core: &Core) -> Pending {
    core.pending(1)
}

// The next job, whose looks nobody counts.
fn candidate<L: Ledger>(machine: &Machine, blank: Blank) -> Option<Candidate>
    requires name { blank.name ≡ L.name }
    requires parts { blank.parts ≡ L.parts }
    requires some { 0 < blank.parts }
{
    machine.parts().next(&mut Steps::<L>::new(blank))
}

/// The next job.
pub fn next(core: &Core) -> Option<Candidate> {
    candidate::<Brand>(core.machine(), Blank::new(1))
}

/// The description of the subsystem that holds the queue.
pub fn holder(core: &Core, queue: &QName) -> Option<QName> {
    match core.machine().parts().holder(queue) {
        None => None,
        Some(sbs) => Some(sbs.sbsd),
    }
}
