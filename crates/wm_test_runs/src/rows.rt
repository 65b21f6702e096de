// The store of a run, and its rows as text.
use anyhow::{Context, Result, ensure};
use std::alloc::Global;
use wm_base::{Text, is_text};
use wm_cases::bytes_of;
use wm_outside::{MemKeeper, MemStore};
use wm_traits::{Keeper, Row, Store, are_in_order};

fn text(alloc: Global, written: &str) -> Result<Text> {
    let bytes = bytes_of(alloc, written)?;
    ensure!(is_text(&bytes), "no text: {written}");
    Ok(Text::from_bytes(alloc, &bytes)?)
}

/// The row of `3|QGPL/NIGHT|BODY`: its table, its key and its body.
pub fn row(alloc: Global, written: &str) -> Result<Row> {
    let (tab, rest) = written.split_once('|').context("a table")?;
    let (key, body) = rest.split_once('|').context("a key")?;
    Ok(Row {
        tab: tab.parse::<u8>()?,
        key: text(alloc, key)?,
        body: text(alloc, body)?,
    })
}

/// A store of these rows, whose keeper fails at these calls of `apply`.
pub fn store_of(rows: Vec<Row>, fail: Vec<u32>) -> Result<MemStore> {
    ensure!(are_in_order(&rows), "rows that aren't in order");
    Ok(MemStore::new(MemKeeper::new(rows, fail)))
}

/// Adds the rows of one table of a store.
pub fn write_table(store: &mut MemStore, tab: &str, answer: &mut String) -> Result<()> {
    let tab = tab.parse::<u8>()?;
    let mut keeper = store.open("")?;
    let rows = keeper.load()?;
    store.close(keeper);
    for row in rows.iter() {
        if row.tab == tab {
            writeln!(answer, "{}|{}|{}", row.tab, row.key, row.body)?;
        }
    }
    Ok(())
}
