// The SQL: how the table of all rows is made, read and written.
ghost use Rattle.std.specs.Prelude.{◌≡◌, pos, None, Ok, false, IsTrue, IfOk, IfSome, IsErrOf, OnOk, OnErr};
ghost use Rattle.sqlite.specs.Order.{column};
ghost use Rattle.sqlite.specs.declared.types.Value.TheVariants.{Int, Text as Words};
ghost use Rattle.sqlite.specs.State.{HasCleanDisk, KeepsCommit, Survives};
ghost use Rattle.sqlite.specs.Held.{state};
ghost use Rattle.wm_traits.specs.declared.fault.KeepFault.TheVariants.{Failed};
ghost use Rattle.wm_sqlkeep.specs.Changes.{IsAsItWas};
ghost use Rattle.sqlite.specs.Given.{Advances};
ghost use Rattle.wm_sqlkeep.specs.Done.{first_columns, Loads, Applies};
ghost use Rattle.wm_sqlkeep.specs.Causes.{columns_of, IsTab, IsWords, MakesRow, Gives, FailsToGive, FailsToLoad, Runs, Makes, FailsToMake, FailsToApply};

use crate::faults::keep_fault;
use sqlite::types::ValueRef;
use sqlite::{Alter, Connection, Error, Rows, Transaction, params};
use std::alloc::Global;
use wm_base::{Text, is_text};
use wm_traits::{KeepFault, Row, RowChange};

const MAKE: &str =
    "CREATE TABLE IF NOT EXISTS wmrow (tab INTEGER NOT NULL, k TEXT NOT NULL, body TEXT NOT NULL, PRIMARY KEY (tab, k)) STRICT";

// What SQLite itself keeps of that text.
const MADE: &str =
    "CREATE TABLE wmrow (tab INTEGER NOT NULL, k TEXT NOT NULL, body TEXT NOT NULL, PRIMARY KEY (tab, k)) STRICT";

const FIND: &str = "SELECT sql FROM sqlite_schema WHERE type = 'table' AND name = 'wmrow'";

const LOAD: &str = "SELECT tab, k, body FROM wmrow ORDER BY tab, k";

const PUT: &str =
    "INSERT INTO wmrow (tab, k, body) VALUES (?1, ?2, ?3) ON CONFLICT (tab, k) DO UPDATE SET body = excluded.body";

const DEL: &str = "DELETE FROM wmrow WHERE tab = ?1 AND k = ?2";

fn make<S: Alter>(conn: &mut Connection<S>) -> Result<(), KeepFault> {
    match conn.execute(MAKE, &[]) {
        Ok(_) => Ok(()),
        Err(error) => Err(keep_fault(error)),
    }
}

// Whether this row of the schema has the text of the table that `MAKE` makes.
fn is_made(row: &sqlite::Row) -> bool {
    match row.get_ref(0) {
        Ok(ValueRef::Text(text)) => text == MAKE.as_bytes() || text == MADE.as_bytes(),
        _ => false,
    }
}

// Finds the table. One of another shape, as its text tells, is a fault.
fn find<S: Alter>(conn: &mut Connection<S>) -> Result<(), KeepFault> {
    match conn.query_row(FIND, &[]) {
        Ok(row) if is_made(&row) => Ok(()),
        Ok(_) => Err(KeepFault::Failed),
        Err(error) => Err(keep_fault(error)),
    }
}

/// Makes the table where there is none. A table of another shape is a fault, and stays as it is.
pub(crate) fn begin<S: Alter>(conn: &mut Connection<S>) -> Result<(), KeepFault> {
    make(conn)?;
    find(conn)
}

fn tab_of(row: &sqlite::Row) -> Option<u8>
    ensures some { IfSome result (λ tab. column row.now 0 ≡ Int (pos tab)) }
    ensures none { result ≡ None → ¬ IsTab (column row.now 0) }
{
    match row.get_ref(0) {
        Ok(ValueRef::Int(tab)) => u8::try_from(tab).ok(),
        _ => None,
    }
}

fn text_of(alloc: Global, row: &sqlite::Row, at: usize) -> Result<Text, KeepFault>
    ensures ok { IfOk result (λ text. column row.now at ≡ Words text) }
    ensures failed { IsErrOf result Failed → ¬ IsWords (column row.now at) }
{
    match row.get_ref(at) {
        Ok(ValueRef::Text(bytes)) if is_text(bytes) => Ok(Text::from_bytes(alloc, bytes)?),
        _ => Err(KeepFault::Failed),
    }
}

// The row of three columns. Values that make none are a fault.
fn row_of(alloc: Global, row: &sqlite::Row) -> Result<Row, KeepFault>
    ensures tab { IfOk result (λ made. column row.now 0 ≡ Int (pos made.tab)) }
    ensures key { IfOk result (λ made. column row.now 1 ≡ Words made.key) }
    ensures body { IfOk result (λ made. column row.now 2 ≡ Words made.body) }
    ensures failed { IsErrOf result Failed → ¬ MakesRow row.now }
{
    let Some(tab) = tab_of(row) else {
        return Err(KeepFault::Failed);
    };
    let key = text_of(alloc, row, 1)?;
    let body = text_of(alloc, row, 2)?;
    Ok(Row { tab, key, body })
}

// The row at which SQLite stands.
fn row_at<S: Alter>(alloc: Global, rows: &Rows<'_, S>) -> Result<Option<Row>, KeepFault>
    ensures some { IfOk result (λ next. IfSome next (λ made. IsTrue rows.now.has_row × (first_columns rows.now.conn.now.reading.row ≡ columns_of made))) }
    ensures none { result ≡ Ok None → rows.now.has_row ≡ false }
    ensures failed { IsErrOf result Failed → IsTrue rows.now.has_row × ¬ MakesRow rows.now.conn.now.reading.row }
{
    match rows.get() {
        Some(row) => Ok(Some(row_of(alloc, row)?)),
        None => Ok(None),
    }
}

// Reads the next row, and answers none behind the last.
fn next_row<S: Alter>(alloc: Global, rows: &mut Rows<'_, S>) -> Result<Option<Row>, KeepFault>
    ensures same_reference { rows.new.conn.ghost_name ≡ rows.old.conn.ghost_name }
    ensures given { HasCleanDisk (state S.Store rows.new.conn.now) → IfOk result (λ next. IfSome next (λ made. (row : _) × Gives S.Store rows.old.conn.now rows.new.conn.now row × (first_columns row ≡ columns_of made))) }
    ensures end { HasCleanDisk (state S.Store rows.new.conn.now) → result ≡ Ok None → Advances S.Store rows.old.conn.now rows.new.conn.now None }
    ensures failed { HasCleanDisk (state S.Store rows.new.conn.now) → IsErrOf result Failed → FailsToGive S.Store rows.old.conn.now rows.new.conn.now }
    ensures survives { Survives (state S.Store rows.old.conn.now) (state S.Store rows.new.conn.now) (λ _. ⊥) }
{
    match rows.advance() {
        Ok(()) => row_at(alloc, rows),
        Err(error) => Err(keep_fault(error)),
    }
}

/// All rows, in their order.
pub(crate) fn load<S: Alter>(alloc: Global, conn: &mut Connection<S>) -> Result<Vec<Row>, KeepFault>
    ensures given { HasCleanDisk (state S.Store conn.new) → IfOk result (λ rows. Loads S.Store conn.old conn.new rows.items) }
    ensures failed { HasCleanDisk (state S.Store conn.new) → IsErrOf result Failed → FailsToLoad S.Store conn.old conn.new }
{
    let mut loaded = Vec::new(alloc);
    let mut rows = match conn.query(LOAD, &[]) {
        Ok(rows) => rows,
        Err(error) => return Err(keep_fault(error)),
    };
    'rows: for _ in 0..u64::MAX {
        let Some(row) = next_row(alloc, &mut rows)? else {
            return Ok(loaded);
        };
        loaded.push(row)?;
    }
    // No memory has room for so many.
    Err(KeepFault::NoMemory)
}

// Makes one change, which isn't committed.
fn execute<S: Alter>(tx: &mut Transaction<'_, S>, change: &RowChange) -> Result<usize, Error>
    ensures same_reference { tx.new.conn.ghost_name ≡ tx.old.conn.ghost_name }
    ensures kept { HasCleanDisk (state S.Store tx.new.conn.now) → KeepsCommit (state S.Store tx.old.conn.now) (state S.Store tx.new.conn.now) }
    ensures inside { HasCleanDisk (state S.Store tx.new.conn.now) → OnOk result (IsTrue tx.new.conn.now.in_transaction) }
    ensures ran { HasCleanDisk (state S.Store tx.new.conn.now) → IsTrue tx.old.conn.now.in_transaction → Runs S.Store change.now tx.old.conn.now tx.new.conn.now result }
    ensures survives { Survives (state S.Store tx.old.conn.now) (state S.Store tx.new.conn.now) (λ _. ⊥) }
{
    match change {
        RowChange::Put(row) => tx.execute(
            PUT,
            params![i64::from(row.tab), row.key.as_str(), row.body.as_str()],
        ),
        RowChange::Del(tab, key) => tx.execute(DEL, params![i64::from(*tab), key.as_str()]),
    }
}

fn write<S: Alter>(tx: &mut Transaction<'_, S>, change: &RowChange) -> Result<(), KeepFault>
    ensures same_reference { tx.new.conn.ghost_name ≡ tx.old.conn.ghost_name }
    ensures kept { HasCleanDisk (state S.Store tx.new.conn.now) → KeepsCommit (state S.Store tx.old.conn.now) (state S.Store tx.new.conn.now) }
    ensures inside { HasCleanDisk (state S.Store tx.new.conn.now) → OnOk result (IsTrue tx.new.conn.now.in_transaction) }
    ensures made { HasCleanDisk (state S.Store tx.new.conn.now) → IsTrue tx.old.conn.now.in_transaction → OnOk result (Makes S.Store change.now tx.old.conn.now tx.new.conn.now) }
    ensures failed { HasCleanDisk (state S.Store tx.new.conn.now) → IsTrue tx.old.conn.now.in_transaction → IsErrOf result Failed → FailsToMake S.Store change.now tx.old.conn.now tx.new.conn.now }
    ensures survives { Survives (state S.Store tx.old.conn.now) (state S.Store tx.new.conn.now) (λ _. ⊥) }
{
    match execute(tx, change) {
        Ok(_) => Ok(()),
        Err(error) => Err(keep_fault(error)),
    }
}

/// Makes the changes in their order, all or none: a transaction that is dropped rolls back. None is open before it, since
/// each call ends its own.
pub(crate) fn apply<S: Alter>(
    conn: &mut Connection<S>,
    changes: &[RowChange],
) -> Result<(), KeepFault>
    ensures made { HasCleanDisk (state S.Store conn.new) → OnOk result (Applies S.Store changes.now conn.old conn.new) }
    ensures err { OnErr result (IsAsItWas (state S.Store conn.old) (state S.Store conn.new)) }
    ensures failed { HasCleanDisk (state S.Store conn.new) → IsErrOf result Failed → FailsToApply S.Store changes.now conn.old conn.new }
{
    if changes.is_empty() {
        return Ok(());
    }
    if !conn.is_autocommit() {
        return Err(KeepFault::Failed);
    }
    let mut tx = conn.transaction();
    'changes: for change in changes {
        write(&mut tx, change)?;
    }
    match tx.commit() {
        Ok(()) => Ok(()),
        Err(error) => Err(keep_fault(error)),
    }
}
