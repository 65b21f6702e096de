//! The program `wrkmgr`: `main` reads the words of the command line, makes the store that they name and the other real
//! objects, makes the one call of `run`, of `serve` or of `drill`, and ends with its status. What is promised is the contract of
//! `run` of `wm_run`, that of `serve` of `wm_serve` and that of `drill` of `wm_runs`. A server's objects are in `serving`, the
//! seats of its threads in `seats`, and what wakes its monitors in `gate`.
#![tactic(auto)]

mod gate;
mod seats;
mod serving;

ghost use Rattle.std.specs.Prelude.{◌≡◌, ◌⊎◌, IfErr, codes, false, map, string_bytes, true};
ghost use Rattle.std.specs.Process.{exit_status};
ghost use Rattle.std.specs.Str.{bytes_eq};
ghost use Rattle.wm_runs.specs.Drill.{IsAmong, drill_statuses};
ghost use Rattle.wm_runs.specs.Words.{is_drill};
ghost use Rattle.wm_run.specs.Run.{IsRunStatus};
ghost use Rattle.wm_run.specs.Words.{is_run};

use crate::serving::serve_planned;
use std::env;
use std::io::ErrorKind;
use std::process::ExitCode;
use std::sync::Wait;
use wm_children::SysSpawner;
use wm_outside::{MemKeeper, MemStore, ReadSource, SysClock, WriteSink};
use wm_plan::{Plan, RunPlan, WordFault, read_words};
use wm_run::{NO_MEMORY, WRONG_WORDS, run};
use wm_runs::drill;
use wm_sqlkeep::SqlStore;
use wm_traits::{Spawner, Store};

// The words behind the program's name, or the status where they can't be had. A word that isn't UTF-8 is a wrong one.
fn words(rt: &HostRuntime) -> Result<Vec<String>, u8>
    ensures { IfErr result (λ status. (status ≡ 2) ⊎ (status ≡ 6)) }
{
    let all = match env::args(rt) {
        Ok(all) => all,
        Err(fault) if fault.kind() == ErrorKind::InvalidData => return Err(WRONG_WORDS),
        Err(_) => return Err(NO_MEMORY),
    };
    match all.skip(1).collect(rt.alloc()) {
        Ok(words) => Ok(words),
        Err(_) => Err(NO_MEMORY),
    }
}

// The one call of `run`, over the objects of the system and a store.
fn run_over<S: Store, C: Spawner, R: Wait>(
    rt: &R,
    host: &HostRuntime,
    words: &[String],
    store: &mut S,
    spawner: &mut C,
) -> u8
    ensures words { is_run (map string_bytes words.now) ≡ false → (result ≡ 2) ⊎ (result ≡ 6) }
    ensures run { is_run (map string_bytes words.now) ≡ true → result ≡ 2 → ⊥ }
    ensures statuses { IsRunStatus result }
{
    let mut input = ReadSource::new(host.stdin());
    let mut out = WriteSink::new(host.stdout());
    let mut clock = SysClock::new(host);
    let ran = run(
        rt,
        host.alloc(),
        words,
        &mut input,
        &mut out,
        store,
        spawner,
        &mut clock,
    );
    ran.status
}

// A run whose rows end with it.
fn run_in_memory<C: Spawner, R: Wait>(
    rt: &R,
    host: &HostRuntime,
    words: &[String],
    spawner: &mut C,
) -> u8
    ensures words { is_run (map string_bytes words.now) ≡ false → (result ≡ 2) ⊎ (result ≡ 6) }
    ensures run { is_run (map string_bytes words.now) ≡ true → result ≡ 2 → ⊥ }
    ensures statuses { IsRunStatus result }
{
    let keeper = MemKeeper::new(Vec::new(host.alloc()), Vec::new(host.alloc()));
    let mut store = MemStore::new(keeper);
    run_over(rt, host, words, &mut store, spawner)
}

// A run over the rows of a file.
fn run_on_file<C: Spawner, R: Wait>(
    rt: &R,
    host: &HostRuntime,
    words: &[String],
    spawner: &mut C,
) -> u8
    ensures words { is_run (map string_bytes words.now) ≡ false → (result ≡ 2) ⊎ (result ≡ 6) }
    ensures run { is_run (map string_bytes words.now) ≡ true → result ≡ 2 → ⊥ }
    ensures statuses { IsRunStatus result }
{
    let mut store = SqlStore::new(host);
    run_over(rt, host, words, &mut store, spawner)
}

// Whether the rows of a run with this plan end with it.
fn ends_with_run(plan: &RunPlan) -> bool
    ensures { result ≡ bytes_eq plan.now.store (codes ":memory:") }
{
    plan.store.as_str() == ":memory:"
}

// What the program ends with behind a run over the store that the plan of its words names.
fn run_planned<C: Spawner, R: Wait>(
    rt: &R,
    host: &HostRuntime,
    words: &[String],
    plan: &RunPlan,
    spawner: &mut C,
) -> ExitCode
    ensures words { is_run (map string_bytes words.now) ≡ false → (exit_status result ≡ 2) ⊎ (exit_status result ≡ 6) }
    ensures run { is_run (map string_bytes words.now) ≡ true → exit_status result ≡ 2 → ⊥ }
    ensures statuses { IsRunStatus (exit_status result) }
{
    let status = if ends_with_run(plan) {
        run_in_memory(rt, host, words, spawner)
    } else {
        run_on_file(rt, host, words, spawner)
    };
    ExitCode::from(status)
}

// What the program ends with behind a drill with these words.
fn drill_program<R: Wait>(rt: &R, host: &HostRuntime, words: &[String]) -> ExitCode
    ensures words { is_drill (map string_bytes words.now) ≡ false → (exit_status result ≡ 2) ⊎ (exit_status result ≡ 6) }
    ensures drill { is_drill (map string_bytes words.now) ≡ true → exit_status result ≡ 2 → ⊥ }
    ensures statuses { IsAmong drill_statuses (exit_status result) }
{
    let mut out = WriteSink::new(host.stdout());
    let ran = drill(rt, host.alloc(), words, &mut out);
    ExitCode::from(ran.status)
}

fn main(rt: HostRuntime) -> ExitCode {
    let words = match words(&rt) {
        Ok(words) => words,
        Err(status) => return ExitCode::from(status),
    };
    match read_words(rt.alloc(), &words) {
        Ok(Plan::Run(plan)) => match SysSpawner::new(rt.alloc(), rt) {
            Ok(mut spawner) => run_planned(&rt, &rt, &words, &plan, &mut spawner),
            Err(_) => ExitCode::from(NO_MEMORY),
        },
        Ok(Plan::Serve(plan)) => serve_planned(&rt, &rt, &words, &plan),
        Ok(Plan::Drill(_)) => drill_program(&rt, &rt, &words),
        Err(WordFault::Bad) => ExitCode::from(WRONG_WORDS),
        Err(WordFault::NoMemory) => ExitCode::from(NO_MEMORY),
    }
}
