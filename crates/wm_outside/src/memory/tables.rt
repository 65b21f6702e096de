// What a change makes of rows in memory.
ghost use Rattle.std.specs.Prelude.{◌≡◌, OnOk, position};
ghost use Rattle.wm_traits.specs.Rows.{is_of, without, placed, put, changed_by};

use wm_base::{NoMemory, Text};
use wm_traits::{Row, RowChange};

fn is_of(row: &Row, tab: u8, key: &Text) -> bool
    ensures { result ≡ is_of tab key.now row.now }
{
    row.tab == tab && row.key == *key
}

fn place_of(rows: &[Row], tab: u8, key: &Text) -> Option<usize>
    ensures { result ≡ position (is_of tab key.now) rows.now }
{
    rows.iter().position(|row| is_of(row, tab, key))
}

#[tactic(auto, using(crate::proofs::Removal::removed_first, crate::proofs::Removal::none_removed))]
fn take_out(rows: &mut Vec<Row>, tab: u8, key: &Text)
    ensures { rows.new.items ≡ without tab key.now rows.old.items }
{
    if let Some(at) = place_of(rows, tab, key) {
        rows.remove(at);
    }
}

// Puts a row behind those that stand before it.
fn place(rows: &mut Vec<Row>, row: Row) -> Result<(), NoMemory>
    ensures { OnOk result (rows.new.items ≡ placed row rows.old.items) }
{
    let at = rows.iter().filter(|other| other.is_before(&row)).count();
    rows.insert(at, row)?;
    Ok(())
}

fn put(rows: &mut Vec<Row>, row: Row) -> Result<(), NoMemory>
    ensures { OnOk result (rows.new.items ≡ put row rows.old.items) }
{
    take_out(rows, row.tab, &row.key);
    place(rows, row)?;
    Ok(())
}

/// Makes a change of rows. Where it answers `NoMemory`, they are of no use.
pub(super) fn change(rows: &mut Vec<Row>, change: RowChange) -> Result<(), NoMemory>
    ensures { OnOk result (rows.new.items ≡ changed_by rows.old.items change) }
{
    match change {
        RowChange::Put(row) => put(rows, row)?,
        RowChange::Del(tab, key) => take_out(rows, tab, &key),
    }
    Ok(())
}
