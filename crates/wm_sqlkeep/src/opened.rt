// The keeper of an opened file or of memory, whose connections are two types.
ghost use Rattle.std.specs.Prelude.{◌≡◌, IfOk};
ghost use Rattle.wm_sqlkeep.specs.Faults.{keeper_faults};
ghost use Rattle.wm_sqlkeep.specs.Opened.{opened_faults};

use crate::faults::keep_fault;
use crate::{SqlKeeper, look, table};
use sqlite::{Alter, Connection, File, FileStore, MemStore};
use std::alloc::Global;
use std::rt::HostRuntime;
use wm_traits::{KeepFault, Keeper, Row, RowChange};

/// A keeper that `SqlStore` opened.
pub enum OpenedKeeper {
    Memory(SqlKeeper<MemStore>),
    File(SqlKeeper<FileStore<File>>),
}

// It is written out, so that a caller does not prove again how a keeper is dropped.
impl Drop for OpenedKeeper {
    fn drop(self) {
        match self {
            OpenedKeeper::Memory(_) => {}
            OpenedKeeper::File(_) => {}
        }
    }
}

// A keeper of an opened database, in which the table is made if it isn't there.
fn begun<S: Alter + Drop>(
    alloc: Global,
    mut connection: Connection<S>,
) -> Result<SqlKeeper<S>, KeepFault>
    ensures { IfOk result (λ keeper. keeper_faults keeper ≡ 0) }
{
    table::begin(&mut connection)?;
    Ok(SqlKeeper::adopt(alloc, connection))
}

fn open_memory(rt: &HostRuntime) -> Result<OpenedKeeper, KeepFault>
    ensures { IfOk result (λ keeper. opened_faults keeper ≡ 0) }
{
    let connection = Connection::open_in_memory(rt.alloc())?;
    Ok(OpenedKeeper::Memory(begun(rt.alloc(), connection)?))
}

fn open_file(rt: &HostRuntime, path: &str) -> Result<OpenedKeeper, KeepFault>
    ensures { IfOk result (λ keeper. opened_faults keeper ≡ 0) }
{
    match Connection::open(rt, path) {
        Ok(connection) => Ok(OpenedKeeper::File(begun(rt.alloc(), connection)?)),
        Err(error) => Err(keep_fault(error)),
    }
}

/// Opens the file, or memory for `:memory:`, and makes the table where there is none.
pub(crate) fn open(rt: &HostRuntime, path: &str) -> Result<OpenedKeeper, KeepFault>
    ensures { IfOk result (λ keeper. opened_faults keeper ≡ 0) }
{
    if path == ":memory:" {
        return open_memory(rt);
    }
    if look::is_other(rt, path) {
        return Err(KeepFault::Failed);
    }
    open_file(rt, path)
}

impl OpenedKeeper {
    ghost use Rattle.wm_sqlkeep.specs.Opened.{opened_faults};

    /// How many calls of `load` and `apply` failed, but for want of memory.
    pub fn faults(&self) -> u64
        ensures { result ≡ opened_faults self.now }
    {
        match self {
            OpenedKeeper::Memory(keeper) => keeper.faults(),
            OpenedKeeper::File(keeper) => keeper.faults(),
        }
    }

    /// Closes it, and copies a file's log into the file. What was applied is kept where that fails, too: the log has it.
    pub(crate) fn close(self) {
        if let OpenedKeeper::File(keeper) = self {
            let _ = keeper.into_connection().close();
        }
    }
}

impl Keeper for OpenedKeeper {
    ghost use Rattle.std.specs.Prelude.{◌≡◌, None, refl, IfOk, IsErrOf, OnOk, OnErr};
    ghost use Rattle.wm_traits.specs.Cause.{HasKeepCause};
    ghost use Rattle.wm_traits.specs.declared.fault.KeepFault.TheVariants.{Failed};
    ghost use Rattle.wm_sqlkeep.specs.Opened.{opened_faults, HasLoaded, LoadFails, HasApplied, ApplyFails, HasStayed};

    ghost faults = { opened_faults };

    ghost tables = { λ _. None };

    ghost trail = { λ _. None };

    fn load(&mut self) -> Result<Vec<Row>, KeepFault>
        ensures cause { HasKeepCause (opened_faults self.old) (opened_faults self.new) result }
        ensures given { IfOk result (λ rows. HasLoaded rows.items self.old self.new) }
        ensures failed { IsErrOf result Failed → LoadFails self.old self.new }
    {
        match self {
            OpenedKeeper::Memory(keeper) => keeper.load(),
            OpenedKeeper::File(keeper) => keeper.load(),
        }
    }

    fn apply(&mut self, changes: &[RowChange]) -> Result<(), KeepFault>
        ensures cause { HasKeepCause (opened_faults self.old) (opened_faults self.new) result }
        ensures made { OnOk result (HasApplied changes.now self.old self.new) }
        ensures err { OnErr result (HasStayed self.old self.new) }
        ensures failed { IsErrOf result Failed → ApplyFails changes.now self.old self.new }
    {
        match self {
            OpenedKeeper::Memory(keeper) => keeper.apply(changes),
            OpenedKeeper::File(keeper) => keeper.apply(changes),
        }
    }

    ghost tables_in_order = { λ _. tt };

    ghost trail_with_tables = { λ _. refl };
}
