// Where keepers come from.
ghost use Rattle.std.specs.Prelude.{◌≡◌, ℕ, List, [], ◌∷◌, Option, IfOk, IfSome, OnErr, is_some};
ghost use Rattle.wm_traits.specs.declared.row.Row.{Row};
ghost use Rattle.wm_traits.specs.Rows.{IsInOrder};
ghost use Rattle.wm_traits.specs.Told.{Grows, Stays};
ghost use Rattle.wm_traits.specs.Cause.{HasKeepCause, PassesOn};

use crate::{KeepFault, Keeper, Row};

/// What gives a keeper at its opening, and takes it back.
pub trait Store {
    type K: Keeper;

    /// How many openings failed, and how many keepers came back that had failed. It never falls.
    ghost faults: { Self → ℕ };

    /// The rows, where they are told.
    ghost tables: { Self → Option (List Row) };

    /// All tables that there were, the present ones last, told where `tables` is told.
    ghost trail: { Self → Option (List (List Row)) };

    /// The paths of all openings, those that failed among them, in order, where they are told.
    ghost opened: { Self → Option (List (List ℕ)) };

    /// Gives a keeper of the rows, which has counted no fault. An `Err` is want of memory, or a fault that was counted; after
    /// it the store has its rows.
    fn open(&mut self, path: &str) -> Result<Self::K, KeepFault>
        ensures fresh { IfOk result (λ keeper. Self.K.faults keeper ≡ 0) }
        ensures tables { IfOk result (λ keeper. Stays (tables self.old) (Self.K.tables keeper)) }
        ensures trail { IfOk result (λ keeper. Stays (trail self.old) (Self.K.trail keeper)) }
        ensures opened { Grows (opened self.old) (opened self.new) (path.now ∷ []) }
        ensures err_tables { OnErr result (Stays (tables self.old) (tables self.new)) }
        ensures err_trail { OnErr result (Stays (trail self.old) (trail self.new)) }
        ensures cause { HasKeepCause (faults self.old) (faults self.new) result };

    /// Takes a keeper back with its rows, and counts a fault where the keeper has counted one.
    fn close(&mut self, keeper: Self::K)
        ensures tables { Stays (Self.K.tables keeper) (tables self.new) }
        ensures trail { Stays (Self.K.trail keeper) (trail self.new) }
        ensures opened { Stays (opened self.old) (opened self.new) }
        ensures faults { PassesOn (Self.K.faults keeper) (faults self.old) (faults self.new) };

    /// The rows stand in their order, and a table has each key once.
    ghost tables_in_order: { (store : Self) → IfSome (tables store) IsInOrder };

    /// The trail is told where the tables are.
    ghost trail_with_tables: { (store : Self) → is_some (trail store) ≡ is_some (tables store) };
}
