// Passes of a floor that were split off.
ghost use Rattle.std.specs.Prelude.{◌≡◌, ◌<◌, length};
ghost use Rattle.wm_floor.specs.Floor.{IsPassOf};
ghost use Rattle.wm_law.specs.Fit.{IsCall};
ghost use Rattle.wm_test_history.specs.Open.{AreOf, IsOpen};

use crate::watch::{TestFloor, TestPass, Watch};
use std::alloc::Global;
use std::sync::Wait;
use wm_base::Moment;
use wm_floor::{Answered, CallFault, MonitorFault, Turned};
use wm_law::Call;

/// Where the pass of this number stands.
pub fn place_of(others: &[TestPass], number: u32) -> Option<usize> {
    others.iter().position(|pass| pass.number() == number)
}

/// Makes a call of the pass that stands there, if one does.
pub fn call_at<R: Wait>(
    rt: &R,
    alloc: Global,
    floor: &TestFloor,
    others: &mut Vec<TestPass>,
    at: usize,
    call: Call,
    now: Moment,
) -> Option<Result<Answered, CallFault>>
    requires own { AreOf floor.now others.old.items }
    requires fit { IsCall call }
    ensures own { AreOf floor.now others.new.items }
    ensures count { length others.new.items ≡ length others.old.items }
{
    match others.get_mut(at) {
        None => {
            drop(call);
            None
        }
        Some(pass) => Some(floor.call(rt, alloc, pass, call, now)),
    }
}

/// Makes a turn of a monitor with the pass that stands there, if one does.
pub fn turn_at<R: Wait>(
    rt: &R,
    alloc: Global,
    floor: &TestFloor,
    others: &mut Vec<TestPass>,
    at: usize,
    watch: &mut Watch,
    now: Moment,
) -> Option<Result<Turned, MonitorFault>>
    requires own { AreOf floor.now others.old.items }
    ensures own { AreOf floor.now others.new.items }
    ensures count { length others.new.items ≡ length others.old.items }
{
    let pass = others.get_mut(at)?;
    Some(watch.turn(rt, alloc, floor, pass, now))
}

/// Makes a wait of a monitor with the pass that stands there, if one does.
pub fn wait_at<R: Wait>(
    rt: &R,
    alloc: Global,
    floor: &TestFloor,
    others: &mut Vec<TestPass>,
    at: usize,
    watch: &mut Watch,
    now: Moment,
) -> Option<Result<Turned, MonitorFault>>
    requires own { AreOf floor.now others.old.items }
    ensures own { AreOf floor.now others.new.items }
    ensures count { length others.new.items ≡ length others.old.items }
{
    let pass = others.get_mut(at)?;
    Some(watch.wait(rt, alloc, floor, pass, now))
}

/// Joins the pass that stands there.
pub fn join_at(floor: &TestFloor, zero: &mut TestPass, others: &mut Vec<TestPass>, at: usize)
    requires some { at < length others.old.items }
    requires open { IsOpen floor.now zero.old others.old.items }
    ensures open { IsOpen floor.now zero.new others.new.items }
    ensures made { zero.new.made ≡ zero.old.made }
{
    let other = others.remove(at);
    floor.join(zero, other);
}

/// Joins all of them.
pub fn join_all(floor: &TestFloor, zero: &mut TestPass, mut others: Vec<TestPass>)
    requires open { IsOpen floor.now zero.old others.items }
    ensures own { IsPassOf floor.now zero.new }
    ensures zero { zero.new.number ≡ 0 }
    ensures all { length zero.new.joined ≡ zero.new.made }
{
    while let Some(other) = others.pop() {
        floor.join(zero, other);
    }
    others.destroy_empty();
}
