// The seats take passes of the floor before their threads run, and give them back behind.
ghost use Rattle.std.specs.Prelude.{◌≡◌, ◌+◌, ◌<◌, All, IfSome, None, Some, fold, length, map};
ghost use Rattle.wm_floor.specs.Floor.{IsPassOf};
ghost use Rattle.wm_turn.specs.Passed.{StartsWith, child, parent};
ghost use Rattle.wm_serve.specs.Seating.{HasPassOf, entered, given, joined, left, seated, with_pass};
ghost use Rattle.wm_serve.specs.Seats.{pass_of};
ghost use Rattle.wm_serve.specs.Done.{HasTold};

use crate::seat::Seat;
use wm_floor::{Floor, FloorPass};
use wm_traits::Keeper;

// Puts a pass that is split off into the room for one.
fn give_pass<K: Keeper>(room: &mut Option<FloorPass<K>>, floor: &Floor<K>, zero: &mut FloorPass<K>)
    requires own { IsPassOf floor.now zero.old }
    requires zero { zero.old.number ≡ 0 }
    requires most { zero.old.made < 4294967295 }
    requires empty { room.old ≡ None }
    ensures own { IsPassOf floor.now zero.new }
    ensures zero { zero.new ≡ parent zero.old }
    ensures given { room.new ≡ Some (child zero.old) }
    ensures its { IsPassOf floor.now (child zero.old) }
{
    let Ok(made) = floor.split(zero) else {
        unreachable!()
    };
    match room.replace(made) {
        None => {}
        Some(_) => unreachable!(),
    }
}

// Joins the pass that is in the room for one.
#[tactic(auto, using(wm_turn::proofs::Histories::starts_itself))]
fn take_pass<K: Keeper>(room: &mut Option<FloorPass<K>>, floor: &Floor<K>, zero: &mut FloorPass<K>)
    requires own { IsPassOf floor.now zero.old }
    requires zero { zero.old.number ≡ 0 }
    requires its { IfSome room.old (IsPassOf floor.now) }
    ensures own { IsPassOf floor.now zero.new }
    ensures zero { zero.new ≡ joined room.old zero.old }
    ensures empty { room.new ≡ None }
    ensures seen { StartsWith zero.new.seen zero.old.seen }
    ensures told { IfSome room.old (λ pass. StartsWith zero.new.seen pass.seen) }
{
    if let Some(pass) = room.take() {
        floor.join(zero, pass);
    }
}

// The seat takes a pass, unless it is the closer's.
fn enter<K: Keeper, D, P, C>(seat: &mut Seat<K, D, P, C>, floor: &Floor<K>, zero: &mut FloorPass<K>)
    requires own { IsPassOf floor.now zero.old }
    requires zero { zero.old.number ≡ 0 }
    requires most { zero.old.made < 4294967295 }
    requires empty { pass_of seat.old ≡ None }
    ensures own { IsPassOf floor.now zero.new }
    ensures zero { zero.new ≡ entered zero.old seat.old }
    ensures seat { seat.new ≡ given zero.old seat.old }
    ensures its { HasPassOf floor.now seat.new }
{
    match seat {
        Seat::Worker(worker) => give_pass(&mut worker.pass, floor, zero),
        Seat::Closer(_) => {}
        Seat::Monitor(monitor) => give_pass(&mut monitor.pass, floor, zero),
    }
}

// The seat gives its pass back, where it has one.
#[tactic(auto, using(wm_turn::proofs::Histories::starts_itself))]
fn leave<K: Keeper, D, P, C>(seat: &mut Seat<K, D, P, C>, floor: &Floor<K>, zero: &mut FloorPass<K>)
    requires own { IsPassOf floor.now zero.old }
    requires zero { zero.old.number ≡ 0 }
    requires its { HasPassOf floor.now seat.old }
    ensures own { IsPassOf floor.now zero.new }
    ensures zero { zero.new ≡ left zero.old seat.old }
    ensures seat { seat.new ≡ with_pass None seat.old }
    ensures seen { StartsWith zero.new.seen zero.old.seen }
    ensures told { HasTold zero.new seat.old }
{
    match seat {
        Seat::Worker(worker) => take_pass(&mut worker.pass, floor, zero),
        Seat::Closer(_) => {}
        Seat::Monitor(monitor) => take_pass(&mut monitor.pass, floor, zero),
    }
}

/// Each seat but the closer's takes a pass, in order.
pub(crate) fn enter_all<K: Keeper, D, P, C>(
    seats: &mut [Seat<K, D, P, C>],
    floor: &Floor<K>,
    zero: &mut FloorPass<K>,
)
    requires own { IsPassOf floor.now zero.old }
    requires zero { zero.old.number ≡ 0 }
    requires most { zero.old.made + length seats.old < 4294967295 }
    requires empty { All (λ seat. pass_of seat ≡ None) seats.old }
    ensures own { IsPassOf floor.now zero.new }
    ensures zero { zero.new ≡ fold entered zero.old seats.old }
    ensures seats { seats.new ≡ seated zero.old seats.old }
    ensures its { All (HasPassOf floor.now) seats.new }
{
    for seat in seats.iter_mut() {
        enter(seat, floor, zero);
    }
}

/// Each seat gives its pass back, in order.
pub(crate) fn leave_all<K: Keeper, D, P, C>(
    seats: &mut [Seat<K, D, P, C>],
    floor: &Floor<K>,
    zero: &mut FloorPass<K>,
)
    requires own { IsPassOf floor.now zero.old }
    requires zero { zero.old.number ≡ 0 }
    requires its { All (HasPassOf floor.now) seats.old }
    ensures own { IsPassOf floor.now zero.new }
    ensures zero { zero.new ≡ fold left zero.old seats.old }
    ensures seats { seats.new ≡ map (with_pass None) seats.old }
    ensures seen { StartsWith zero.new.seen zero.old.seen }
    ensures told { All (HasTold zero.new) seats.old }
{
    for seat in seats.iter_mut() {
        leave(seat, floor, zero);
    }
}
