// One step of the machine, with its keeper's failed calls counted.
ghost use Rattle.std.specs.Prelude.{◌≡◌, ◌≤◌, IfOk, OnOk, OnErr};
ghost use Rattle.wm_law.specs.Fit.{IsCall};
ghost use Rattle.wm_law.specs.History.{stepped};
ghost use Rattle.wm_floor.specs.Keeping.{telling, IsKept, IsLeft};
ghost use Rattle.wm_floor.specs.Causes.{HasMissed, IsMissCounted, NeverFull};

use crate::{CallFault, Replied, StoredCore};
use std::alloc::Global;
use std::mem;
use wm_law::{Entry, Reply};
use wm_traits::{KeepFault, Keeper};

/// The step of an entry's call, whose rows are kept before its reply is written there. It answers a copy of the reply, which was
/// made before the rows were kept. A call that the keeper fails is counted.
pub(crate) fn step<K: Keeper>(
    alloc: Global,
    stored: &mut StoredCore<K>,
    misses: &mut u64,
    entry: &mut Entry,
) -> Result<Reply, CallFault>
    requires ranges { IsCall entry.old.call }
    ensures entry { OnOk result (entry.new ≡ record entry.old { reply = (stepped stored.old.state entry.old).reply }) }
    ensures copy { IfOk result (λ copy. copy ≡ entry.new.reply) }
    ensures state { OnOk result (stored.new.state ≡ (stepped stored.old.state entry.old).state) }
    ensures kept { OnOk result (IsKept stored.old.state stored.new.state (telling K.tables K.trail stored.old.keeper) (telling K.tables K.trail stored.new.keeper)) }
    ensures err { OnErr result (stored.new.state ≡ stored.old.state) }
    ensures left { OnErr result (IsLeft (telling K.tables K.trail stored.old.keeper) (telling K.tables K.trail stored.new.keeper)) }
    ensures later { K.faults stored.old.keeper ≤ K.faults stored.new.keeper }
    ensures counted { IsMissCounted (K.faults stored.old.keeper) (K.faults stored.new.keeper) result }
    ensures missed { HasMissed misses.old misses.new result }
    ensures never_full { NeverFull result }
{
    match stored.step(alloc, entry.caller, &entry.call, entry.moment) {
        Ok(Replied { reply, copy }) => {
            // By a call, since a reply that goes out of scope is taken apart here, which is dear to prove.
            drop(mem::replace(&mut entry.reply, reply));
            Ok(copy)
        }
        Err(KeepFault::Failed) => {
            *misses = misses.saturating_add(1);
            Err(CallFault::KeeperFault)
        }
        Err(KeepFault::NoMemory) => Err(CallFault::NoMemory),
    }
}
