// How a machine opens with the rows of a keeper.
ghost use Rattle.std.specs.Prelude.{◌≡◌, IfOk, IfErr, OnOk, OnErr};
ghost use Rattle.wm_floor.specs.OpenFaults.{IsCounted, NamesBad};
ghost use Rattle.wm_floor.specs.Keeping.{telling, IsLeft, IsOpened};
ghost use Rattle.wm_floor.specs.Stored.{IsInStep};

use crate::OpenFault;
use crate::keeping::apply;
use std::alloc::Global;
use wm_core::{Core, Setup};
use wm_restart::open_rows;
use wm_traits::Keeper;

/// The machine of the rows that a keeper has, which has those of the machine's state then. An `Err` leaves them.
pub(crate) fn open_core<K: Keeper>(
    alloc: Global,
    keeper: &mut K,
    setup: &Setup,
) -> Result<Core, OpenFault>
    ensures ok { IfOk result (λ core. IsOpened setup.now.offset core.state (telling K.tables K.trail keeper.old) (telling K.tables K.trail keeper.new)
        × IsInStep core.state (K.tables keeper.new)) }
    ensures err { OnErr result (IsLeft (telling K.tables K.trail keeper.old) (telling K.tables K.trail keeper.new)) }
    ensures bad { IfErr result (λ fault. NamesBad setup.now.offset (K.tables keeper.old) fault) }
    ensures ok_faults { OnOk result (K.faults keeper.new ≡ K.faults keeper.old) }
    ensures faults { IfErr result (λ fault. IsCounted (K.faults keeper.old) (K.faults keeper.new) fault) }
{
    let rows = keeper.load()?;
    let opened = open_rows(alloc, &rows, setup)?;
    match apply(keeper, &opened.changes) {
        Ok(()) => Ok(opened.core),
        Err(fault) => {
            drop(opened);
            Err(OpenFault::from(fault))
        }
    }
}
