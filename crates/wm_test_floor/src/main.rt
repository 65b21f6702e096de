//! The cases of the shared floor: operators and monitors in threads of their own call one floor, in memory or over a file.
//!
//! A round begins with a few commands. Then 2, 4, 8 or 16 operators submit, hold, release, end and list their own jobs beside two
//! monitors over spawners in memory, each with a pass of its own, by numbers that the round's seed draws. Once the passes were joined and the floor was closed, its history is played again by the plain machine from nothing,
//! which must give the same entries; each operator's entries are those that it was answered, at their places, and each list of
//! its jobs is the plain machine's after so many entries; each monitor's entries are as many as it was told, and their orders are
//! what its spawner was asked. One round more is long, so that the history has several of the parts in which a floor has it.
//! Some rounds keep their rows in a file of this machine too (`on_file`), which then has the rows that are kept in memory.
//! What is printed is how many rounds were alike. A round that isn't ends the program. With words it measures, for
//! `bench/floor.sh`, what `measure` says.
#![tactic(auto)]

ghost use Rattle.std.specs.Prelude.{◌≡◌, ◌<◌};

mod call;
mod draw;
mod keeper;
mod measure;
mod on_file;
mod operator;
mod record;
mod replay;
mod round;
mod watcher;
mod work;

use anyhow::{Context, Result, ensure};
use keeper::TestKeeper;
use measure::measured;
use on_file::case_on_file;
use replay::replayed;
use round::round;
use std::alloc::Global;
use std::env;
use std::sync::Wait;
use std::thread::Threads;
use work::{Plan, Role};

// How many rounds there are of each number of operators.
const ROUNDS: u64 = 50;

// How many of each number there are over a file.
const FILE_ROUNDS: u64 = 5;

// How many acts each thread makes in a round.
const ACTS: u32 = 24;

// How many acts each makes in a long round, whose history then has more than two of the parts in which a floor has it.
const LONG_ACTS: u32 = 600;

const TWO_PARTS: usize = 2048;

// One round, and its history played again. It answers how many entries that has.
fn case<R: Threads + Wait + Sync>(rt: &R, alloc: Global, plan: Plan) -> Result<usize>
    requires threads { plan.threads < 1000 }
    requires monitors { plan.monitors < 1000 }
{
    let (made, keeper) = round(rt, alloc, TestKeeper::new(alloc, None), plan)?;
    drop(keeper);
    let compared = replayed(alloc, &made);
    let entries = made.log.len();
    drop(made);
    compared.context(format_args!("{} operators, seed {}", plan.threads, plan.seed))?;
    Ok(entries)
}

fn plan(operators: u32, acts: u32, seed: u64) -> Plan
    ensures threads { result.threads ≡ operators }
    ensures monitors { result.monitors ≡ 2 }
{
    Plan {
        threads: operators,
        role: Role::Operator,
        monitors: 2,
        acts,
        seed: seed
            .wrapping_mul(0x9e37_79b9_7f4a_7c15)
            .wrapping_add(u64::from(operators)),
    }
}

fn cases<R: Threads + Wait + Sync>(rt: &R, host: &HostRuntime, operators: u32) -> Result<()>
    requires { operators < 1000 }
{
    for seed in 0..ROUNDS {
        case(rt, host.alloc(), plan(operators, ACTS, seed))?;
    }
    println!(host; "{operators} operators: {ROUNDS} rounds alike")?;
    Ok(())
}

fn cases_on_file<R: Threads + Wait + Sync>(rt: &R, host: &HostRuntime, operators: u32) -> Result<()>
    requires { operators < 1000 }
{
    for seed in 0..FILE_ROUNDS {
        case_on_file(rt, host, plan(operators, ACTS, seed))?;
    }
    println!(host; "{operators} operators over a file: {FILE_ROUNDS} rounds alike")?;
    Ok(())
}

fn all_on_file<R: Threads + Wait + Sync>(rt: &R, host: &HostRuntime) -> Result<()> {
    cases_on_file(rt, host, 2)?;
    cases_on_file(rt, host, 4)?;
    cases_on_file(rt, host, 8)?;
    cases_on_file(rt, host, 16)
}

fn long_case<R: Threads + Wait + Sync>(rt: &R, host: &HostRuntime) -> Result<()> {
    let entries = case(rt, host.alloc(), plan(4, LONG_ACTS, 0))?;
    ensure!(entries > TWO_PARTS, "the history is short");
    println!(host; "4 operators: a long round alike")?;
    Ok(())
}

fn all_cases<R: Threads + Wait + Sync>(rt: &R, host: &HostRuntime) -> Result<()> {
    cases(rt, host, 2)?;
    cases(rt, host, 4)?;
    cases(rt, host, 8)?;
    cases(rt, host, 16)?;
    long_case(rt, host)
}

fn main(rt: HostRuntime) -> Result<()> {
    let words: Vec<String> = env::args(&rt)?.skip(1).collect(rt.alloc())?;
    if words.is_empty() {
        all_cases(&rt, &rt)?;
        all_on_file(&rt, &rt)
    } else {
        measured(&rt, &rt, words.as_slice())
    }
}
