// A keeper in memory.
ghost use Rattle.std.specs.Prelude.{◌≡◌, ◌++◌, List, [], ◌∷◌, Some, IfOk, OnOk, OnErr, IsErrOf};
ghost use Rattle.wm_traits.specs.Rows.{IsInOrder, changed, new_tables};
ghost use Rattle.wm_traits.specs.Cause.{HasKeepCause, keep_missed};
ghost use Rattle.wm_traits.specs.declared.fault.KeepFault.TheVariants.{Failed, NoMemory};

use super::calls::Calls;
use super::change_log::ChangeLog;
use std::alloc::Global;
use wm_traits::{KeepFault, Keeper, Row, RowChange};

/// A keeper of the rows that were there first and of the changes of each `apply` since. So an `apply` costs what its
/// changes are long, and `load` computes the rows.
#[derive(Drop)]
pub struct MemKeeper {
    began: Vec<Row>,
    made: ChangeLog,
    calls: Calls,
    ghost in_order: { IsInOrder began.items },
}

impl MemKeeper {
    ghost use Rattle.wm_outside.specs.Keeping.{keeper_tables, keeper_trail, keeper_calls};
    ghost use Rattle.wm_outside.specs.Calls.{is_new, opened_again};

    /// A keeper of these rows, whose `apply` fails at the calls of these numbers, from 1.
    pub fn new(rows: Vec<Row>, fail: Vec<u32>) -> MemKeeper
        requires { IsInOrder rows.items }
        ensures tables { keeper_tables result ≡ rows.items }
        ensures trail { keeper_trail result ≡ rows.items ∷ [] }
        ensures calls { keeper_calls result ≡ is_new fail }
    {
        let alloc = *rows.allocator();
        MemKeeper {
            began: rows,
            made: ChangeLog::new(alloc),
            calls: Calls::new(fail),
        }
    }

    pub(crate) fn alloc(&self) -> Global {
        *self.began.allocator()
    }

    // The same keeper as it is opened, with no fault counted.
    pub(crate) fn opened(mut self) -> MemKeeper
        ensures tables { keeper_tables result ≡ keeper_tables self }
        ensures trail { keeper_trail result ≡ keeper_trail self }
        ensures calls { keeper_calls result ≡ opened_again (keeper_calls self) }
    {
        self.calls.failed = 0;
        self
    }

    /// How many calls of `apply` failed since it was made or opened.
    pub fn faults(&self) -> u64
        ensures { result ≡ (keeper_calls self.now).failed }
    {
        self.calls.failed
    }
}

impl Keeper for MemKeeper {
    ghost use Rattle.wm_outside.specs.Keeping.{keeper_tables, keeper_trail, keeper_calls};
    ghost use Rattle.wm_outside.specs.Calls.{CountsCall};
    ghost use Rattle.wm_outside.specs.InOrder.{after_in_order};
    ghost use Rattle.std.specs.Prelude.{refl};

    ghost faults = { λ k. (keeper_calls k).failed };

    ghost tables = { λ k. Some (keeper_tables k) };

    ghost trail = { λ k. Some (keeper_trail k) };

    fn load(&mut self) -> Result<Vec<Row>, KeepFault>
        ensures rows { IfOk result (λ rows. rows.items ≡ keeper_tables self.old) }
        ensures same { self.new ≡ self.old }
        ensures never_fails { IsErrOf result Failed → ⊥ }
    {
        let mut rows = self.began.to_vec(*self.began.allocator())?;
        self.made.change(&mut rows)?;
        Ok(rows)
    }

    #[tactic(auto, using(crate::proofs::Keeping::tables_grown, crate::proofs::Keeping::trail_grown))]
    fn apply(&mut self, changes: &[RowChange]) -> Result<(), KeepFault>
        ensures tables { OnOk result (keeper_tables self.new ≡ changed changes.now (keeper_tables self.old)) }
        ensures trail { OnOk result (keeper_trail self.new ≡ keeper_trail self.old ++ new_tables changes.now (keeper_tables self.new)) }
        ensures err_tables { OnErr result (keeper_tables self.new ≡ keeper_tables self.old) }
        ensures err_trail { OnErr result (keeper_trail self.new ≡ keeper_trail self.old) }
        ensures calls { CountsCall (keeper_calls self.old) (keeper_calls self.new) (keep_missed result) }
    {
        if self.calls.count().is_err() {
            return Err(KeepFault::Failed);
        }
        if changes.is_empty() {
            return Ok(());
        }
        self.made.push(changes)?;
        Ok(())
    }

    ghost tables_in_order = { λ k. after_in_order k.began.items k.made k.in_order };

    ghost trail_with_tables = { λ k. refl };
}
