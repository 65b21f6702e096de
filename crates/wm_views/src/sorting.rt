// Putting into an order.
ghost use Rattle.std.specs.Prelude.{◌≡◌, Bool, IfOk};
ghost use Rattle.std.specs.Cmp.{IsStrictWeakOrder};
ghost use Rattle.std.specs.Ordering.{is_lt};
ghost use Rattle.wm_views.specs.Sorted.{sorted};

use std::alloc::Global;
use std::cmp::Ordering;
use wm_base::NoMemory;

/// What can be put into an order.
pub(crate) trait Ordered: Copy {
    ghost before: { Self → Self → Bool };

    /// Whether it goes before another.
    fn before(&self, other: &Self) -> bool
        ensures { result ≡ before self.now other.now };

    ghost ranks: { IsStrictWeakOrder before };
}

// How two stand to one another.
fn compare<T: Ordered>(one: &T, other: &T) -> Ordering
    ensures { is_lt result ≡ T.before one.now other.now }
{
    if one.before(other) {
        Ordering::Less
    } else if other.before(one) {
        Ordering::Greater
    } else {
        Ordering::Equal
    }
}

// The items as they came.
fn copied<T: Copy>(alloc: Global, items: &[T]) -> Result<Vec<T>, NoMemory>
    ensures { IfOk result (λ list. list.items ≡ items.now) }
{
    items.iter().copied().collect(alloc)
}

/// The items in their order, equal ones as they came. An `Err` is want of memory.
pub(crate) fn sorted<T: Ordered>(alloc: Global, items: &[T]) -> Result<Vec<T>, NoMemory>
    ensures { IfOk result (λ list. list.items ≡ sorted T.before items.now) }
{
    let mut list = copied(alloc, items)?;
    list.sort_by(
        |one: &T, other: &T| -> Ordering
            ensures { is_lt result ≡ T.before one.now other.now }
        { compare(one, other) },
    )?;
    Ok(list)
}
