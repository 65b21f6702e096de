// A store of SQLite over files in memory, which a stop ends.
use super::script::{Act, Step};
use anyhow::{Result, ensure};
use sqlite::{Connection, FileStore, Files, Options};
use sqlite_disk::{Fuse, Memory};
use std::alloc::Global;
use wm_sqlkeep::SqlKeeper;
use wm_traits::{Keeper, Row, RowChange};

/// The table that a keeper finds.
const MAKE: &str =
    "CREATE TABLE IF NOT EXISTS wmrow (tab INTEGER NOT NULL, k TEXT NOT NULL, body TEXT NOT NULL, PRIMARY KEY (tab, k)) STRICT";

/// A store with its keeper, or the files of one that a stop has ended.
#[derive(Drop)]
pub enum Store {
    Open(SqlKeeper<FileStore<Fuse<Memory>>>),
    Stopped(Files<Fuse<Memory>>),
}

// All pages of a test have room in memory.
fn options(frames: usize) -> Options {
    let mut options = Options::new(7);
    options.cache_pages = 100;
    options.checkpoint_frames = frames;
    options
}

fn with_table(alloc: Global, mut connection: Connection<FileStore<Fuse<Memory>>>) -> Store {
    match connection.execute(MAKE, &[]) {
        Ok(_) => Store::Open(SqlKeeper::adopt(alloc, connection)),
        Err(_) => Store::Stopped(connection.into_store().close()),
    }
}

/// A store over the files, which copies its log once that has so many frames. Files of which a sync has failed stay closed.
pub fn opened(alloc: Global, files: Files<Fuse<Memory>>, frames: usize) -> Store {
    if !files.may_be_used() {
        return Store::Stopped(files);
    }
    match Connection::open_files(alloc, files, options(frames)) {
        Ok(connection) => with_table(alloc, connection),
        Err((_, left)) => Store::Stopped(left.into_files()),
    }
}

// The files as they are.
fn killed(keeper: SqlKeeper<FileStore<Fuse<Memory>>>) -> Files<Fuse<Memory>> {
    keeper.into_connection().into_store().close()
}

/// The files of a store that is closed, and whether the close went well.
pub fn closed(keeper: SqlKeeper<FileStore<Fuse<Memory>>>) -> (Files<Fuse<Memory>>, bool) {
    match keeper.into_connection().close_files() {
        Ok(files) => (files, true),
        Err((_, store)) => (store.close(), false),
    }
}

fn looked(mut keeper: SqlKeeper<FileStore<Fuse<Memory>>>, rows: &[Row]) -> Result<Store> {
    match keeper.load() {
        Ok(found) => {
            ensure!(found.as_slice() == rows, "a store has other rows");
            Ok(Store::Open(keeper))
        }
        Err(_) => Ok(Store::Stopped(killed(keeper))),
    }
}

/// A store over the files, whose rows are to be these.
pub fn begun(
    alloc: Global,
    files: Files<Fuse<Memory>>,
    frames: usize,
    rows: &[Row],
) -> Result<Store> {
    match opened(alloc, files, frames) {
        Store::Open(keeper) => looked(keeper, rows),
        Store::Stopped(files) => Ok(Store::Stopped(files)),
    }
}

fn applied(mut keeper: SqlKeeper<FileStore<Fuse<Memory>>>, changes: &[RowChange]) -> Store {
    match keeper.apply(changes) {
        Ok(()) => Store::Open(keeper),
        Err(_) => Store::Stopped(killed(keeper)),
    }
}

fn closed_and_begun(
    alloc: Global,
    keeper: SqlKeeper<FileStore<Fuse<Memory>>>,
    frames: usize,
    rows: &[Row],
) -> Result<Store> {
    match closed(keeper) {
        (files, true) => begun(alloc, files, frames, rows),
        (files, false) => Ok(Store::Stopped(files)),
    }
}

/// The store after the step.
pub fn made(
    alloc: Global,
    keeper: SqlKeeper<FileStore<Fuse<Memory>>>,
    frames: usize,
    step: &Step,
) -> Result<Store> {
    match &step.act {
        Act::Apply(changes) => Ok(applied(keeper, changes)),
        Act::Kill => begun(alloc, killed(keeper), frames, &step.rows),
        Act::Close => closed_and_begun(alloc, keeper, frames, &step.rows),
    }
}
