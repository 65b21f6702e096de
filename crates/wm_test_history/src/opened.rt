// Opening a floor over a keeper in memory, and closing it.
use crate::calls::OpenFloor;
use anyhow::{Result, ensure};
use std::alloc::Global;
use wm_floor::OpenFault;
use wm_outside::MemKeeper;
use wm_traits::{Row, are_in_order};

/// The fault of a question that wants an open floor.
pub const NO_FLOOR: &str = "no open floor";

/// The most that a history takes, where a case names no other.
const MOST: u32 = 1_000_000;

/// A keeper of rows that stand in their order, which fails at these calls of `apply`.
pub fn keeper_of(rows: Vec<Row>, fail: Vec<u32>) -> Result<MemKeeper> {
    ensure!(are_in_order(&rows), "rows that aren't in order");
    Ok(MemKeeper::new(rows, fail))
}

fn limit_of(words: &str) -> Result<u32> {
    match words.strip_prefix("limit ") {
        None => Ok(MOST),
        Some(limit) => Ok(limit.parse::<u32>()?),
    }
}

/// The same floor, with one more pass split off for a monitor.
pub fn with_monitor(mut opened: OpenFloor) -> Result<OpenFloor> {
    match opened.split() {
        Ok(_) => Ok(opened),
        Err(fault) => {
            drop(opened.close());
            Err(fault)
        }
    }
}

/// A floor over the keeper, with the limit of `limit 3`, or with the greatest, and with passes 0 and 1. An `Err` hands the
/// keeper back.
pub fn open(
    alloc: Global,
    keeper: MemKeeper,
    words: &str,
) -> Result<Result<OpenFloor, (MemKeeper, OpenFault)>> {
    let limit = limit_of(words)?;
    ensure!((1..=MOST).contains(&limit), "no limit");
    match OpenFloor::open(alloc, keeper, limit) {
        Ok(opened) => Ok(Ok(with_monitor(opened)?)),
        Err(back) => Ok(Err(back)),
    }
}

/// Closes what is open.
pub fn shut_down(floor: Option<OpenFloor>) {
    match floor {
        None => {}
        Some(floor) => drop(floor.close()),
    }
}
