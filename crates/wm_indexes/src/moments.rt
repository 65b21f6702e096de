// The moments of active jobs' wishes, in the order in which they come.
ghost use Rattle.std.specs.Prelude.{◌≡◌, ℕ, ◌≤◌, List};
ghost use Rattle.wm_ordered.specs.Index.{IsIndex};
ghost use Rattle.wm_ordered.specs.Keys.{nothing_of};
ghost use Rattle.wm_indexes.specs.declared.acting.Acting.{Acting};
ghost use Rattle.wm_indexes.specs.Active.{next_above};
ghost use Rattle.wm_indexes.specs.Moments.{AreInRange, has_moment, turn_of};

use crate::acting::Acting;
use crate::turn::Turn;
use wm_base::{Moment, Serial};
use wm_ordered::Ordered;

/// The turn of a job, whose moment is 0 where it has none.
pub(crate) fn turn_of(serial: Serial, acting: &Acting) -> Turn
    ensures turn { result ≡ turn_of (serial, acting.now) }
    ensures range { result.moment ≤ 253402214399 }
{
    let moment = acting.until.unwrap_or(Moment::new(0));
    // `get` tells that the moment is in range.
    moment.get();
    Turn { moment, serial }
}

/// The least of the moments above a clock. It is one look.
pub(crate) fn least_above(turns: &Ordered<Turn, ()>, clock: Moment) -> Option<Moment>
    ensures { (jobs : List (ℕ × Acting)) → IsIndex turn_of nothing_of has_moment jobs turns.now.items → AreInRange jobs → result ≡ next_above clock jobs }
{
    // `len` tells that turns ascend.
    turns.len();
    let seconds = clock.get();
    if seconds >= Moment::MAX {
        return None;
    }
    let begin = Turn {
        moment: Moment::new(seconds + 1),
        serial: Serial::new(0),
    };
    let Some(row) = turns.first_from(&begin) else {
        return None;
    };
    Some(row.0.moment)
}
