// A keeper of the tests.
ghost use Rattle.wm_traits.specs.Cause.{HasKeepCause};
ghost use Rattle.wm_test_floor.specs.Kept.{file_faults};

use std::alloc::Global;
use wm_outside::MemKeeper;
use wm_sqlkeep::OpenedKeeper;
use wm_traits::{KeepFault, Keeper, Row, RowChange};

/// A keeper of the same rows in memory and in a file, or in memory alone. It tells no rows.
pub struct TestKeeper {
    memory: MemKeeper,
    file: Option<OpenedKeeper>,
}

// It is written out, so that a caller does not prove again how each part is dropped.
impl Drop for TestKeeper {
    fn drop(self) {
        let TestKeeper { memory: _, file: _ } = self;
    }
}

impl TestKeeper {
    /// One without rows.
    pub fn new(alloc: Global, file: Option<OpenedKeeper>) -> TestKeeper {
        TestKeeper {
            memory: MemKeeper::new(Vec::new(alloc), Vec::new(alloc)),
            file,
        }
    }

    /// Its two parts.
    pub fn into_parts(self) -> (MemKeeper, Option<OpenedKeeper>) {
        let TestKeeper { memory, file } = self;
        (memory, file)
    }
}

// Makes the changes in the file, where there is one.
fn apply_in_file(file: &mut Option<OpenedKeeper>, changes: &[RowChange]) -> Result<(), KeepFault>
    ensures cause { HasKeepCause (file_faults file.old) (file_faults file.new) result }
{
    match file {
        Some(keeper) => keeper.apply(changes),
        None => Ok(()),
    }
}

impl Keeper for TestKeeper {
    ghost use Rattle.std.specs.Prelude.{None, refl};
    ghost use Rattle.wm_test_floor.specs.Kept.{file_faults};

    ghost faults = { λ k. file_faults k.file };

    ghost tables = { λ _. None };

    ghost trail = { λ _. None };

    fn load(&mut self) -> Result<Vec<Row>, KeepFault> {
        match self.memory.load() {
            Ok(rows) => Ok(rows),
            Err(_) => Err(KeepFault::NoMemory),
        }
    }

    fn apply(&mut self, changes: &[RowChange]) -> Result<(), KeepFault> {
        apply_in_file(&mut self.file, changes)?;
        match self.memory.apply(changes) {
            Ok(()) => Ok(()),
            Err(_) => Err(KeepFault::NoMemory),
        }
    }

    ghost tables_in_order = { λ _. tt };

    ghost trail_with_tables = { λ _. refl };
}
