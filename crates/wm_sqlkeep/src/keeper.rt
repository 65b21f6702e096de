// A keeper over a connection to any store of SQLite.
ghost use Rattle.std.specs.Prelude.{◌≡◌, None, refl, IfOk, IsErrOf, OnOk, OnErr};
ghost use Rattle.sqlite.specs.State.{HasCleanDisk};
ghost use Rattle.sqlite.specs.Held.{state};
ghost use Rattle.wm_traits.specs.Cause.{HasKeepCause};
ghost use Rattle.wm_traits.specs.declared.fault.KeepFault.TheVariants.{Failed};
ghost use Rattle.wm_sqlkeep.specs.Faults.{keeper_faults};
ghost use Rattle.wm_sqlkeep.specs.Changes.{IsAsItWas};
ghost use Rattle.wm_sqlkeep.specs.Causes.{FailsToLoad, FailsToApply};
ghost use Rattle.wm_sqlkeep.specs.Done.{Loads, Applies};

use crate::faults::counted;
use crate::table;
use sqlite::{Alter, Connection};
use std::alloc::Global;
use wm_traits::{KeepFault, Keeper, Row, RowChange};

/// A keeper of the rows in the table of a connection, which it has alone. It tells no rows.
pub struct SqlKeeper<S: Alter> {
    connection: Connection<S>,
    alloc: Global,
    faults: u64,
}

// It is written out, so that a caller does not prove again how each part is dropped.
impl<S: Alter + Drop> Drop for SqlKeeper<S> {
    fn drop(self) {
        let SqlKeeper {
            connection: _,
            alloc: _,
            faults: _,
        } = self;
    }
}

impl<S: Alter> SqlKeeper<S> {
    /// A keeper over a connection that is there, whose database has the table already. Where it hasn't, `load` and `apply`
    /// fail.
    pub fn adopt(alloc: Global, connection: Connection<S>) -> SqlKeeper<S>
        ensures connection { result.connection ≡ connection }
        ensures faults { keeper_faults result ≡ 0 }
    {
        SqlKeeper {
            connection,
            alloc,
            faults: 0,
        }
    }

    /// How many calls of `load` and `apply` failed, but for want of memory.
    pub fn faults(&self) -> u64
        ensures { result ≡ keeper_faults self.now }
    {
        self.faults
    }

    /// The connection, as the calls have left it.
    pub fn into_connection(self) -> Connection<S>
        ensures { result ≡ self.connection }
    {
        let SqlKeeper {
            connection,
            alloc: _,
            faults: _,
        } = self;
        connection
    }
}

impl<S: Alter> Keeper for SqlKeeper<S> {
    ghost faults = { keeper_faults };

    ghost tables = { λ _. None };

    ghost trail = { λ _. None };

    fn load(&mut self) -> Result<Vec<Row>, KeepFault>
        ensures cause { HasKeepCause (keeper_faults self.old) (keeper_faults self.new) result }
        ensures given { HasCleanDisk (state S.Store self.new.connection) → IfOk result (λ rows. Loads S.Store self.old.connection self.new.connection rows.items) }
        ensures failed { HasCleanDisk (state S.Store self.new.connection) → IsErrOf result Failed → FailsToLoad S.Store self.old.connection self.new.connection }
    {
        let loaded = table::load(self.alloc, &mut self.connection);
        counted(&mut self.faults, loaded)
    }

    fn apply(&mut self, changes: &[RowChange]) -> Result<(), KeepFault>
        ensures cause { HasKeepCause (keeper_faults self.old) (keeper_faults self.new) result }
        ensures made { HasCleanDisk (state S.Store self.new.connection) → OnOk result (Applies S.Store changes.now self.old.connection self.new.connection) }
        ensures err { OnErr result (IsAsItWas (state S.Store self.old.connection) (state S.Store self.new.connection)) }
        ensures failed { HasCleanDisk (state S.Store self.new.connection) → IsErrOf result Failed → FailsToApply S.Store changes.now self.old.connection self.new.connection }
    {
        let applied = table::apply(&mut self.connection, changes);
        counted(&mut self.faults, applied)
    }

    ghost tables_in_order = { λ _. tt };

    ghost trail_with_tables = { λ _. refl };
}
