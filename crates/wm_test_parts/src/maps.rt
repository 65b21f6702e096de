// The ordered maps and prestart jobs: each call beside the same of std's `BTreeMap`, whose answers are the wanted ones; and how
// many prestart jobs are made, beside the same reckoned round by round.
//
// Nothing is read. What is printed, and what must be printed, is how many pairs were compared in each round.
mod map_pair;
mod map_rounds;
mod prestart_pair;
mod prestart_rounds;
mod slot_pair;
mod slot_rounds;

use anyhow::Result;
use map_rounds::{few_calls, rising, scrambled};
use prestart_rounds::{made_in_rounds, prestart_calls, wishes};
use slot_rounds::{few_serials, passing, put_back};

/// Makes the rounds, and prints what was compared in each.
pub fn compare_maps(rt: &HostRuntime) -> Result<()> {
    let alloc = rt.alloc();
    few_calls(alloc)?;
    println!(rt; "few calls: as wanted")?;
    let pairs = scrambled(alloc)?;
    println!(rt; "put in scrambled, taken out in order: {pairs} pairs")?;
    let pairs = rising(alloc)?;
    println!(rt; "put in in order, taken out scrambled: {pairs} pairs")?;
    few_serials(alloc)?;
    println!(rt; "few serials: as wanted")?;
    let pairs = passing(alloc)?;
    println!(rt; "put in in order, most taken out soon: {pairs} pairs")?;
    let pairs = put_back(alloc)?;
    println!(rt; "put in in order, taken out and put back scrambled: {pairs} pairs")?;
    let jobs = prestart_calls(alloc)?;
    println!(rt; "prestart jobs put in, changed and taken out scrambled: {jobs} jobs")?;
    let most = made_in_rounds()?;
    println!(rt; "prestart jobs made as in rounds: {most} at the most")?;
    wishes()?;
    println!(rt; "the wishes after a use: as wanted")?;
    Ok(())
}
