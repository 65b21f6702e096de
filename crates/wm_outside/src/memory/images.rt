// A store in memory that keeps all tables that it has had.
ghost use Rattle.std.specs.Prelude.{◌≡◌, ◌↔◌, ◌++◌, ◌<◌, length, slice_get, Some, IsSome, IfOk, IfSome, OnOk, OnErr, IsErrOf};
ghost use Rattle.wm_traits.specs.Rows.{IsInOrder, changed, new_tables};
ghost use Rattle.wm_traits.specs.declared.fault.KeepFault.TheVariants.{Failed};

use super::replay::change_all;
use std::mem::replace;
use wm_traits::{KeepFault, Keeper, Row, RowChange};

/// A keeper that keeps its tables as they were found and after each `apply` that changed something. No call of it fails but
/// for want of memory.
#[derive(Drop)]
pub struct ImageKeeper {
    past: Vec<Vec<Row>>,
    present: Vec<Row>,
    ghost in_order: { IsInOrder present.items },
}

impl ImageKeeper {
    ghost use Rattle.std.specs.Prelude.{[], ◌∷◌};
    ghost use Rattle.wm_outside.specs.Images.{image_tables, image_trail};

    // A keeper of these rows.
    pub(crate) fn new(rows: Vec<Row>) -> ImageKeeper
        requires { IsInOrder rows.items }
        ensures tables { image_tables result ≡ rows.items }
        ensures trail { image_trail result ≡ rows.items ∷ [] }
    {
        ImageKeeper {
            past: Vec::new(*rows.allocator()),
            present: rows,
        }
    }

    /// The tables that it has had, by their number from 0: those that were found, and those after each change. None comes
    /// exactly where there are no more than that.
    pub fn image(&self, k: u32) -> Option<&[Row]>
        ensures rows { IfSome result (λ rows. slice_get (image_trail self.now) k ≡ Some rows.now) }
        ensures exactly { IsSome result ↔ (k < length (image_trail self.now)) }
    {
        let k = k as usize;
        if k == self.past.len() {
            return Some(&self.present);
        }
        let rows = self.past.get(k)?;
        Some(rows)
    }
}

impl Keeper for ImageKeeper {
    ghost use Rattle.wm_outside.specs.Images.{image_tables, image_trail};
    ghost use Rattle.std.specs.Prelude.{refl};

    ghost faults = { λ k. 0 };

    ghost tables = { λ k. Some (image_tables k) };

    ghost trail = { λ k. Some (image_trail k) };

    fn load(&mut self) -> Result<Vec<Row>, KeepFault>
        ensures rows { IfOk result (λ rows. rows.items ≡ image_tables self.old) }
        ensures same { self.new ≡ self.old }
        ensures never_fails { IsErrOf result Failed → ⊥ }
    {
        let rows = self.present.to_vec(*self.present.allocator())?;
        Ok(rows)
    }

    fn apply(&mut self, changes: &[RowChange]) -> Result<(), KeepFault>
        ensures tables { OnOk result (image_tables self.new ≡ changed changes.now (image_tables self.old)) }
        ensures trail { OnOk result (image_trail self.new ≡ image_trail self.old ++ new_tables changes.now (image_tables self.new)) }
        ensures err_tables { OnErr result (image_tables self.new ≡ image_tables self.old) }
        ensures err_trail { OnErr result (image_trail self.new ≡ image_trail self.old) }
        ensures never_fails { IsErrOf result Failed → ⊥ }
    {
        if changes.is_empty() {
            return Ok(());
        }
        let mut rows = self.present.to_vec(*self.present.allocator())?;
        change_all(&mut rows, changes)?;
        self.past.reserve(1)?;
        let before = replace(&mut self.present, rows);
        self.past.push_reserved(before);
        Ok(())
    }

    ghost tables_in_order = { λ k. k.in_order };

    ghost trail_with_tables = { λ k. refl };
}
