// A store of the keeper that keeps all its tables.
ghost use Rattle.std.specs.Prelude.{◌≡◌, ◌↔◌, ◌<◌, [], ◌∷◌, length, slice_get, Some, None, IsErr, IsSome, IfOk, IfSome, IsErrOf};
ghost use Rattle.wm_traits.specs.Rows.{IsInOrder};
ghost use Rattle.wm_traits.specs.Cause.{HasKeepCause};
ghost use Rattle.wm_traits.specs.declared.fault.KeepFault.TheVariants.{NoMemory};

use super::images::ImageKeeper;
use wm_traits::{KeepFault, Row, Store};

/// A store of one keeper that keeps all its tables. Its opening fails exactly while the keeper is out. It tells no paths.
#[derive(Drop)]
pub struct ImageStore {
    keeper: Option<ImageKeeper>,
    was_closed: bool,
    faults: u64,
}

impl ImageStore {
    ghost use Rattle.wm_outside.specs.ImageStores.{closed_images, image_store_faults, image_store_tables, image_store_trail};

    /// A store that has these rows.
    pub fn new(rows: Vec<Row>) -> ImageStore
        requires { IsInOrder rows.items }
        ensures tables { image_store_tables result ≡ Some rows.items }
        ensures trail { image_store_trail result ≡ Some (rows.items ∷ []) }
        ensures faults { image_store_faults result ≡ 0 }
        ensures images { closed_images result ≡ [] }
    {
        ImageStore {
            keeper: Some(ImageKeeper::new(rows)),
            was_closed: false,
            faults: 0,
        }
    }

    /// The tables of the keeper that was given back, by their number from 0. None comes where there are no more than that,
    /// before a keeper was given back, and while it is out.
    pub fn image(&self, k: u32) -> Option<&[Row]>
        ensures rows { IfSome result (λ rows. slice_get (closed_images self.now) k ≡ Some rows.now) }
        ensures exactly { IsSome result ↔ (k < length (closed_images self.now)) }
    {
        match &self.keeper {
            Some(keeper) if self.was_closed => keeper.image(k),
            _ => None,
        }
    }

    /// How many openings failed.
    pub fn faults(&self) -> u64
        ensures { result ≡ image_store_faults self.now }
    {
        self.faults
    }
}

impl Store for ImageStore {
    ghost use Rattle.wm_outside.specs.Images.{image_tables, image_trail};
    ghost use Rattle.wm_outside.specs.ImageStores.{closed_images, images_in_order, images_with_tables, image_store_faults, image_store_tables, image_store_trail, is_out};

    type K = ImageKeeper;

    ghost faults = { image_store_faults };

    ghost tables = { image_store_tables };

    ghost trail = { image_store_trail };

    ghost opened = { λ s. None };

    fn open(&mut self, path: &str) -> Result<ImageKeeper, KeepFault>
        ensures exactly { IsErr result ↔ is_out self.old }
        ensures failed { IsErrOf result NoMemory → ⊥ }
        ensures tables { IfOk result (λ keeper. image_store_tables self.old ≡ Some (image_tables keeper)) }
        ensures trail { IfOk result (λ keeper. image_store_trail self.old ≡ Some (image_trail keeper)) }
        ensures out { is_out self.new }
        ensures cause { HasKeepCause (image_store_faults self.old) (image_store_faults self.new) result }
    {
        match self.keeper.take() {
            Some(keeper) => Ok(keeper),
            None => {
                self.faults = self.faults.saturating_add(1);
                Err(KeepFault::Failed)
            }
        }
    }

    fn close(&mut self, keeper: ImageKeeper)
        ensures tables { image_store_tables self.new ≡ Some (image_tables keeper) }
        ensures images { closed_images self.new ≡ image_trail keeper }
        ensures trail { image_store_trail self.new ≡ Some (image_trail keeper) }
        ensures faults { image_store_faults self.new ≡ image_store_faults self.old }
    {
        self.keeper = Some(keeper);
        self.was_closed = true;
    }

    ghost tables_in_order = { λ s. images_in_order s.keeper };

    ghost trail_with_tables = { λ s. images_with_tables s.keeper };
}
