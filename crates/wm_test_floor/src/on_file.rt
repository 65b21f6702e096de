// Rounds over a floor whose rows a file of this machine has too.
ghost use Rattle.std.specs.Prelude.{◌<◌};

use crate::keeper::TestKeeper;
use crate::replay::replayed;
use crate::round::round;
use crate::work::Plan;
use anyhow::{Context, Result, ensure};
use std::fs;
use std::rt::HostRuntime;
use std::sync::Wait;
use std::thread::Threads;
use wm_sqlkeep::SqlStore;
use wm_traits::{Keeper, Store};

// The file of a round, and SQLite's log beside it. A round begins and ends without them.
const STORE: &str = "rows.db";

const LOG: &str = "rows.db-wal";

fn remove_files(host: &HostRuntime) {
    let _ = fs::remove_file(host, STORE);
    let _ = fs::remove_file(host, LOG);
}

// Compares the rows that the file has once it is opened again with those in memory.
fn compare_rows(store: &mut SqlStore, keeper: TestKeeper) -> Result<()> {
    let (mut memory, file) = keeper.into_parts();
    store.close(file.context("no keeper of the file")?);
    let mut opened = store.open(STORE)?;
    let (rows, wanted) = (opened.load(), memory.load());
    store.close(opened);
    ensure!(rows? == wanted?, "the file has other rows");
    ensure!(store.faults() == 0, "the store has counted a fault");
    Ok(())
}

// A round, its history played again, and its rows.
fn compared<R: Threads + Wait + Sync>(
    rt: &R,
    host: &HostRuntime,
    store: &mut SqlStore,
    plan: Plan,
) -> Result<()>
    requires threads { plan.threads < 1000 }
    requires monitors { plan.monitors < 1000 }
{
    let keeper = TestKeeper::new(host.alloc(), Some(store.open(STORE)?));
    let (made, keeper) = round(rt, host.alloc(), keeper, plan)?;
    let replayed = replayed(host.alloc(), &made);
    drop(made);
    let rows = compare_rows(store, keeper);
    replayed?;
    rows
}

/// A round over a file.
pub fn case_on_file<R: Threads + Wait + Sync>(rt: &R, host: &HostRuntime, plan: Plan) -> Result<()>
    requires threads { plan.threads < 1000 }
    requires monitors { plan.monitors < 1000 }
{
    remove_files(host);
    let mut store = SqlStore::new(host);
    let compared = compared(rt, host, &mut store, plan);
    remove_files(host);
    compared.context(format_args!("{} operators over a file, seed {}", plan.threads, plan.seed))?;
    Ok(())
}
