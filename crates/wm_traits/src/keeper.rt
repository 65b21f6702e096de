// What keeps rows.
ghost use Rattle.std.specs.Prelude.{◌≡◌, ℕ, List, Option, IfOk, IfSome, OnOk, OnErr, is_some};
ghost use Rattle.wm_traits.specs.declared.row.Row.{Row};
ghost use Rattle.wm_traits.specs.Rows.{IsInOrder, changed, new_tables};
ghost use Rattle.wm_traits.specs.Told.{Becomes, Grows, Stays};
ghost use Rattle.wm_traits.specs.Cause.{HasKeepCause};

use crate::{KeepFault, Row, RowChange};

/// What keeps the rows of all tables. They stand in the order of their tables, and in a table in that of their keys.
pub trait Keeper {
    /// How many calls failed. It never falls.
    ghost faults: { Self → ℕ };

    /// The rows, where they are told.
    ghost tables: { Self → Option (List Row) };

    /// All tables that it has had, the present ones last, told where `tables` is told.
    ghost trail: { Self → Option (List (List Row)) };

    /// The rows. An `Err` is want of memory, or a fault that was counted, and leaves them.
    fn load(&mut self) -> Result<Vec<Row>, KeepFault>
        ensures rows { IfOk result (λ rows. IfSome (tables self.old) (λ told. rows.items ≡ told)) }
        ensures tables { Stays (tables self.old) (tables self.new) }
        ensures trail { Stays (trail self.old) (trail self.new) }
        ensures cause { HasKeepCause (faults self.old) (faults self.new) result };

    /// Makes the changes in their order, all or none. An `Err` is want of memory, or a fault that was counted, and changes
    /// nothing.
    fn apply(&mut self, changes: &[RowChange]) -> Result<(), KeepFault>
        ensures tables { OnOk result (Becomes (tables self.old) (tables self.new) (changed changes.now)) }
        ensures trail { OnOk result (IfSome (tables self.new) (λ rows. Grows (trail self.old) (trail self.new) (new_tables changes.now rows))) }
        ensures err_tables { OnErr result (Stays (tables self.old) (tables self.new)) }
        ensures err_trail { OnErr result (Stays (trail self.old) (trail self.new)) }
        ensures cause { HasKeepCause (faults self.old) (faults self.new) result };

    /// The rows stand in their order, and a table has each key once.
    ghost tables_in_order: { (keeper : Self) → IfSome (tables keeper) IsInOrder };

    /// The trail is told where the tables are.
    ghost trail_with_tables: { (keeper : Self) → is_some (trail keeper) ≡ is_some (tables keeper) };
}
