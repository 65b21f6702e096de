// A floor in memory.
ghost use Rattle.std.specs.Prelude.{◌≡◌, ◌≤◌, [], IfOk};
ghost use Rattle.wm_floor.specs.Floor.{IsPassOf};

use anyhow::{Result, bail};
use std::alloc::Global;
use wm_core::Setup;
use wm_desc::qbatch;
use wm_floor::{Floor, FloorPass};
use wm_outside::MemKeeper;
use wm_when::Offset;

/// A floor that takes so many entries, whose keeper fails at these calls, and its pass 0.
pub fn opened(
    alloc: Global,
    limit: u32,
    fail: Vec<u32>,
) -> Result<(Floor<MemKeeper>, FloorPass<MemKeeper>)>
    requires some { 1 ≤ limit }
    requires most { limit ≤ 1000000 }
    ensures own { IfOk result (λ made. IsPassOf made.0 made.1) }
    ensures zero { IfOk result (λ made. made.1.number ≡ 0) }
    ensures made { IfOk result (λ made. made.1.made ≡ 0) }
    ensures joined { IfOk result (λ made. made.1.joined ≡ []) }
{
    let keeper = MemKeeper::new(Vec::new(alloc), fail);
    let setup = Setup {
        ctl: qbatch(),
        offset: Offset::new(0),
    };
    match Floor::open(alloc, keeper, &setup, limit) {
        Ok(made) => Ok(made),
        Err((keeper, fault)) => {
            drop(keeper);
            bail!("not opened: {fault}")
        }
    }
}
