// How a seat's turn begins and ends.
ghost use Rattle.std.specs.Prelude.{◌≡◌, ◌≢◌, ◌⊎◌, ℕ, ◌%◌, ◌^◌, ◌<◌, ◌≤◌, true, List, [], ◌∷◌, length, Some, None};
ghost use Rattle.wm_turn.specs.declared.view.Stage.TheVariants.{Idle, Waiting, Turn};
ghost use Rattle.wm_turn.specs.Held.{Belongs, IsTable};
ghost use Rattle.wm_turn.specs.Kinds.{Begins};
ghost use Rattle.wm_turn.specs.Passed.{Grows, StartsWith};
ghost use Rattle.wm_turn.specs.Views.{IsTurn, is_live, before_of, done, failed_of, seeing};

use crate::sleepers::Sleepers;
use crate::standing::Standing;
use crate::steps::{
    SERVING, check, draw, enter_entry, lay_in, look, mark, pass_on, read, take_out,
};
use crate::view::{Desk, Place};
use std::hint;
use std::snapshot::Snapshot;
use std::sync::Wait;
use std::time::Duration;

// A thread with at most so many turns before its own looks so many times, with a pause of the processor for each of these turns
// between two looks. After that, or with more turns before its own, it sleeps.
const NEAR: u64 = 4;

const LOOKS: u32 = 1000;

// A sleep that isn't ended by a wake lasts a millisecond, and the next ones twice as long each, so many times.
const DOUBLINGS: u32 = 6;

// Sleeps until the ticket may have been served, or for so many milliseconds.
fn sleep<X: Standing, R: Wait>(
    rt: &R,
    desk: &Desk<X>,
    sleepers: &Sleepers,
    ticket: u64,
    millis: u64,
)
    requires { IsTable desk.now.table_id }
{
    let wakes = sleepers.announce(ticket);
    let waits = desk.peek(SERVING) != ticket;
    sleepers.sleep(rt, ticket, wakes, waits, Duration::from_millis(millis));
}

// Waits between two looks, and counts on. Once it has slept, a thread doesn't pause the processor any more.
fn pause<X: Standing, R: Wait>(
    rt: &R,
    desk: &Desk<X>,
    sleepers: &Sleepers,
    ticket: u64,
    served: u64,
    looks: u32,
) -> u32
    requires { IsTable desk.now.table_id }
{
    let before = ticket.wrapping_sub(served);
    if looks < LOOKS && before <= NEAR {
        for _ in 0..before {
            hint::spin_loop();
        }
        return looks + 1;
    }
    let sleeps = looks.saturating_sub(LOOKS);
    sleep(rt, desk, sleepers, ticket, 1 << sleeps.min(DOUBLINGS));
    looks.max(LOOKS).saturating_add(1)
}

// Looks until the seat's own ticket is served.
fn wait<X: Standing, R: Wait>(
    rt: &R,
    desk: &Desk<X>,
    sleepers: &Sleepers,
    place: &mut Place<X>,
    ticket: u64,
)
    requires own { Belongs place.old.table_id desk.now.table_id }
    requires waits { (t : ℕ) × (ticket ≡ t % 2 ^ 64) × (place.old.me.0.stage ≡ Waiting t) }
    requires free { place.old.me.1 ≡ [] }
    requires live { is_live place.old.me.0 ≡ true }
    ensures table { place.new.table_id ≡ place.old.table_id }
    ensures turn { (t : ℕ) × Begins X.opening X.stands X.mark t place.old.me place.new.me }
{
    let mut looks: u32 = 0;
    for _ in rt.forever() {
        let served = look(desk, place);
        if served == ticket {
            return;
        }
        looks = pause(rt, desk, sleepers, ticket, served, looks);
    }
    unreachable!()
}

/// Waits for the seat's turn and takes the value, with how many entries there are.
pub(crate) fn begin<X: Standing, R: Wait>(
    rt: &R,
    desk: &Desk<X>,
    sleepers: &Sleepers,
    place: &mut Place<X>,
) -> (X, u64)
    requires own { Belongs place.old.table_id desk.now.table_id }
    requires idle { place.old.me.0.stage ≡ Idle }
    requires free { place.old.me.1 ≡ [] }
    requires live { is_live place.old.me.0 ≡ true }
    ensures table { place.new.table_id ≡ place.old.table_id }
    ensures view { (t : ℕ) × (f : ℕ) × (place.new.me ≡ (seeing (X.stands result.0) (Turn t (X.mark result.0) f) place.old.me.0, (0, None) ∷ [])) × (f ≡ 1 → X.mark result.0 ≢ 0) }
    ensures front { StartsWith (X.stands result.0) place.old.me.0.seen }
    ensures opens { place.old.me.0.opening ≡ Some (X.opening result.0) }
    ensures count { result.1 ≡ length (X.stands result.0) }
{
    let ticket = draw(desk, place);
    wait(rt, desk, sleepers, place, ticket);
    let _failed = check(desk, place);
    let value = take_out(desk, place);
    let count = read(desk, place);
    (value, count)
}

/// Gives the value back, with its new entry and its mark, and ends the turn.
pub(crate) fn end<X: Standing>(
    desk: &Desk<X>,
    sleepers: &Sleepers,
    place: &mut Place<X>,
    value: X,
    count: u64,
)
    requires own { Belongs place.old.table_id desk.now.table_id }
    requires turn { IsTurn place.old.me.0.stage }
    requires empty { place.old.me.1 ≡ (0, None) ∷ [] }
    requires count { count ≡ length place.old.me.0.seen }
    requires known { failed_of place.old.me.0.stage ≡ 1 → before_of place.old.me.0.stage ≢ 0 }
    requires opens { place.old.me.0.opening ≡ Some (X.opening value) }
    requires grows { Grows X.by place.old.me.0.number place.old.me.0.seen (X.stands value) }
    requires room { length (X.stands value) < 2 ^ 64 }
    requires mark { before_of place.old.me.0.stage ≤ X.mark value }
    ensures table { place.new.table_id ≡ place.old.table_id }
    ensures done { place.new.me ≡ (done (X.stands value) (X.mark value) place.old.me.0, []) }
{
    let grown = value.entries() > count;
    let marked = value.marked();
    let kept = Snapshot::of(&value);
    lay_in(desk, place, value);
    enter_entry(desk, place, &kept, grown);
    mark(desk, place, &kept, marked);
    let served = pass_on(desk, place, &kept);
    sleepers.wake(served.wrapping_add(1));
}
