// Single steps of a seat, each as its kind tells it.
ghost use Rattle.std.specs.Prelude.{◌≡◌, ◌≢◌, ℕ, ◌%◌, ◌^◌, ◌<◌, ◌↔◌, true, List, [], ◌∷◌, length, Some, None, IsTrue};
ghost use Rattle.wm_turn.specs.declared.view.Stage.TheVariants.{Idle, Waiting};
ghost use Rattle.wm_turn.specs.Held.{Belongs};
ghost use Rattle.wm_turn.specs.Kinds.{Looked, Recalled};
ghost use Rattle.wm_turn.specs.Passed.{Grows};
ghost use Rattle.wm_turn.specs.Views.{IsTurn, is_live, at_stage, entered, noted, failed_of};

use crate::plays::{Check, Draw, Enter, Look, Mark, PassOn, Read, Recall};
use crate::standing::Standing;
use crate::view::{Desk, Place};
use std::snapshot::Snapshot;

// The next ticket to draw, and the one that is served.
pub(crate) const TICKET: usize = 0;

pub(crate) const SERVING: usize = 1;
// How many entries the history has.
pub(crate) const COUNT: usize = 2;
// 1 once a value with a mark has been given back.
pub(crate) const FAILED: usize = 3;

/// Draws a ticket.
pub(crate) fn draw<X: Standing>(desk: &Desk<X>, place: &mut Place<X>) -> u64
    requires own { Belongs place.old.table_id desk.now.table_id }
    requires idle { place.old.me.0.stage ≡ Idle }
    requires live { is_live place.old.me.0 ≡ true }
    ensures table { place.new.table_id ≡ place.old.table_id }
    ensures drawn { (t : ℕ) × (result ≡ t % 2 ^ 64) × (place.new.me ≡ (at_stage (Waiting t) place.old.me.0, place.old.me.1)) }
{
    desk.fetch_add::<Draw>(place, TICKET, 1)
}

/// Looks which ticket is served. The turn begins where it is the seat's own.
pub(crate) fn look<X: Standing>(desk: &Desk<X>, place: &mut Place<X>) -> u64
    requires own { Belongs place.old.table_id desk.now.table_id }
    requires waits { (t : ℕ) × (place.old.me.0.stage ≡ Waiting t) }
    requires free { place.old.me.1 ≡ [] }
    requires live { is_live place.old.me.0 ≡ true }
    ensures table { place.new.table_id ≡ place.old.table_id }
    ensures looked { Looked X.opening X.stands X.mark place.old.me result place.new.me }
{
    desk.load::<Look>(place, SERVING)
}

/// Reads in its turn whether a value with a mark has been given back.
pub(crate) fn check<X: Standing>(desk: &Desk<X>, place: &mut Place<X>) -> u64
    requires own { Belongs place.old.table_id desk.now.table_id }
    requires turn { IsTurn place.old.me.0.stage }
    ensures table { place.new.table_id ≡ place.old.table_id }
    ensures same { place.new.me ≡ place.old.me }
    ensures known { result ≡ failed_of place.old.me.0.stage }
{
    desk.load::<Check>(place, FAILED)
}

/// Reads in its turn how many entries there are.
pub(crate) fn read<X: Standing>(desk: &Desk<X>, place: &mut Place<X>) -> u64
    requires own { Belongs place.old.table_id desk.now.table_id }
    requires turn { IsTurn place.old.me.0.stage }
    ensures table { place.new.table_id ≡ place.old.table_id }
    ensures same { place.new.me ≡ place.old.me }
    ensures count { result ≡ length place.old.me.0.seen }
{
    desk.load::<Read>(place, COUNT)
}

/// Takes the value out of the slot.
pub(crate) fn take_out<X: Standing>(desk: &Desk<X>, place: &mut Place<X>) -> X
    requires own { Belongs place.old.table_id desk.now.table_id }
    requires holds { (value : X) × (place.old.me.1 ≡ (0, Some value) ∷ []) }
    ensures table { place.new.table_id ≡ place.old.table_id }
    ensures value { place.old.me.1 ≡ (0, Some result) ∷ [] }
    ensures left { place.new.me ≡ (place.old.me.0, (0, None) ∷ []) }
{
    match desk.exchange(place, 0, None) {
        Some(value) => value,
        None => unreachable!(),
    }
}

/// Lays the value into the slot.
pub(crate) fn lay_in<X: Standing>(desk: &Desk<X>, place: &mut Place<X>, value: X)
    requires own { Belongs place.old.table_id desk.now.table_id }
    requires empty { place.old.me.1 ≡ (0, None) ∷ [] }
    ensures table { place.new.table_id ≡ place.old.table_id }
    ensures laid { place.new.me ≡ (place.old.me.0, (0, Some value) ∷ []) }
{
    let slot = desk.exchange(place, 0, Some(value));
    let None = slot else { unreachable!() };
}

/// Enters an entry, where the list in the slot has grown.
pub(crate) fn enter_entry<X: Standing>(
    desk: &Desk<X>,
    place: &mut Place<X>,
    value: &Snapshot<X>,
    grown: bool,
)
    requires own { Belongs place.old.table_id desk.now.table_id }
    requires turn { IsTurn place.old.me.0.stage }
    requires holds { place.old.me.1 ≡ (0, Some value.now.value) ∷ [] }
    requires opens { place.old.me.0.opening ≡ Some (X.opening value.now.value) }
    requires grows { Grows X.by place.old.me.0.number place.old.me.0.seen (X.stands value.now.value) }
    requires room { length (X.stands value.now.value) < 2 ^ 64 }
    requires grown { IsTrue grown ↔ (length place.old.me.0.seen < length (X.stands value.now.value)) }
    ensures table { place.new.table_id ≡ place.old.table_id }
    ensures entered { place.new.me ≡ (entered (X.stands value.now.value) place.old.me.0, place.old.me.1) }
{
    if grown {
        desk.fetch_add::<Enter>(place, COUNT, 1);
    }
}

/// Marks, where the value in the slot has a mark.
pub(crate) fn mark<X: Standing>(
    desk: &Desk<X>,
    place: &mut Place<X>,
    value: &Snapshot<X>,
    marked: bool,
)
    requires own { Belongs place.old.table_id desk.now.table_id }
    requires turn { IsTurn place.old.me.0.stage }
    requires holds { place.old.me.1 ≡ (0, Some value.now.value) ∷ [] }
    ensures table { place.new.table_id ≡ place.old.table_id }
    ensures noted { place.new.me ≡ (noted marked (X.mark value.now.value) place.old.me.0, place.old.me.1) }
{
    if marked {
        desk.fetch_or::<Mark>(place, FAILED, 1);
    }
}

/// Gives the slot back and serves the next ticket. The one that was served is returned.
pub(crate) fn pass_on<X: Standing>(desk: &Desk<X>, place: &mut Place<X>, value: &Snapshot<X>) -> u64
    requires own { Belongs place.old.table_id desk.now.table_id }
    requires turn { IsTurn place.old.me.0.stage }
    requires holds { place.old.me.1 ≡ (0, Some value.now.value) ∷ [] }
    requires opens { place.old.me.0.opening ≡ Some (X.opening value.now.value) }
    requires whole { X.stands value.now.value ≡ place.old.me.0.seen }
    requires marked { failed_of place.old.me.0.stage ≡ 1 → X.mark value.now.value ≢ 0 }
    ensures table { place.new.table_id ≡ place.old.table_id }
    ensures left { place.new.me ≡ (at_stage Idle place.old.me.0, []) }
{
    desk.fetch_add::<PassOn>(place, SERVING, 1)
}

/// Tells what the seat knows.
pub(crate) fn recall<X: Standing>(desk: &Desk<X>, place: &mut Place<X>)
    requires own { Belongs place.old.table_id desk.now.table_id }
    ensures table { place.new.table_id ≡ place.old.table_id }
    ensures same { place.new.me ≡ place.old.me }
    ensures told { Recalled X.by X.fact place.old.me.0 }
{
    let _count = desk.load::<Recall>(place, COUNT);
}
