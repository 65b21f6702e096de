// Looks of a pass, until it has seen what another has.
ghost use Rattle.std.specs.Prelude.{◌≤◌, length};
ghost use Rattle.wm_floor.specs.Floor.{HasLooked, IsPassOf, IsSame, Waits};

use std::sync::Wait;
use wm_floor::{Floor, FloorPass, Waiting};
use wm_traits::Keeper;

/// Looks until the pass has seen so many entries, of which another pass was told: the first look finds them. It answers what waits
/// then.
pub(crate) fn see<K: Keeper, R: Wait>(
    rt: &R,
    floor: &Floor<K>,
    pass: &mut FloorPass<K>,
    least: u32,
) -> Waiting
    requires own { IsPassOf floor.now pass.old }
    ensures own { IsPassOf floor.now pass.new }
    ensures same { IsSame pass.old pass.new }
    ensures looked { HasLooked pass.old pass.new }
    ensures seen { least ≤ length pass.new.seen }
    ensures waits { Waits floor.now pass.new result }
{
    'looks: for _ in rt.forever() {
        let waiting = floor.waiting(rt, pass);
        if waiting.at >= least {
            return waiting;
        }
    }
    unreachable!()
}
