// Values that several lists have.
ghost use Rattle.std.specs.Prelude.{◌≡◌, IfOk};

use std::marker::Model;
use std::sync::Arc;
use wm_base::NoMemory;

/// A value that several lists have. A contract sees it as the value.
#[derive(Drop)]
pub(crate) struct Shared<T> {
    value: Arc<T>,
}

impl<T> Model for Shared<T> {
    ghost use Rattle.std.specs.Arc.{arc_value};

    ghost Value = { T };

    ghost view = { λ s. arc_value s.value };
}

impl<T> Shared<T> {
    ghost use Rattle.std.specs.Arc.{arc_value};

    /// The value of an `Arc`.
    pub(crate) fn of(value: Arc<T>) -> Shared<T>
        ensures { result ≡ arc_value value }
    {
        Shared { value }
    }

    /// The value.
    pub(crate) fn get(&self) -> &T
        ensures { result.now ≡ self.now }
    {
        &self.value
    }
}

impl<T: Drop> Shared<T> {
    /// The value once more, for another list. It takes no memory. An `Err` comes only where so many lists have it that they can't be
    /// counted.
    pub(crate) fn again(&self) -> Result<Shared<T>, NoMemory>
        ensures { IfOk result (λ more. more ≡ self.now) }
    {
        Ok(Shared {
            value: Arc::try_clone(&self.value)?,
        })
    }
}
