// A keeper in memory of which no call fails.
ghost use Rattle.std.specs.Prelude.{◌≡◌, ◌∷◌, []};
ghost use Rattle.wm_outside.specs.Keeping.{keeper_calls};
ghost use Rattle.wm_runs.specs.Unfailing.{NeverFails};

use std::alloc::Global;
use wm_outside::MemKeeper;
use wm_traits::{KeepFault, Keeper, Row, RowChange};

/// A keeper of rows in memory of which no call fails but for want of memory.
#[derive(Drop)]
pub struct SteadyKeeper {
    keeper: MemKeeper,
    ghost steady: { NeverFails (keeper_calls keeper) },
}

impl SteadyKeeper {
    ghost use Rattle.wm_outside.specs.Keeping.{keeper_tables, keeper_trail};

    /// A keeper of no rows.
    pub fn new(alloc: Global) -> SteadyKeeper
        ensures tables { keeper_tables result.keeper ≡ [] }
        ensures trail { keeper_trail result.keeper ≡ [] ∷ [] }
    {
        SteadyKeeper {
            keeper: MemKeeper::new(Vec::new(alloc), Vec::new(alloc)),
        }
    }
}

impl Keeper for SteadyKeeper {
    ghost use Rattle.std.specs.Prelude.{Some, refl};
    ghost use Rattle.wm_outside.specs.Keeping.{keeper_tables, keeper_trail};
    ghost use Rattle.wm_outside.specs.InOrder.{after_in_order};

    ghost faults = { λ _. 0 };

    ghost tables = { λ k. Some (keeper_tables k.keeper) };

    ghost trail = { λ k. Some (keeper_trail k.keeper) };

    #[tactic(auto, using(crate::proofs::Unfailing::loaded_cause))]
    fn load(&mut self) -> Result<Vec<Row>, KeepFault> {
        self.keeper.load()
    }

    #[tactic(auto, using(crate::proofs::Unfailing::applied_cause))]
    fn apply(&mut self, changes: &[RowChange]) -> Result<(), KeepFault> {
        self.keeper.apply(changes)
    }

    ghost tables_in_order = { λ k. after_in_order k.keeper.began.items k.keeper.made k.keeper.in_order };

    ghost trail_with_tables = { λ k. refl };
}
