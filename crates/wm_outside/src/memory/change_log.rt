// The changes that a keeper in memory keeps, in one vector of bytes: a block of memory for each text would cost more than
// most of the texts, and the rows of jobs are mostly alike.
ghost use Rattle.std.specs.Prelude.{◌≡◌, [], ◌∷◌, ◌++◌, OnOk, OnErr};
ghost use Rattle.wm_outside.specs.Log.{tables_after};

use super::replay::{make_all, new_base, no_row};
use super::writing::write_call;
use std::alloc::Global;
use std::marker::Model;
use wm_base::NoMemory;
use wm_traits::{Row, RowChange};

/// The changes of each call, in the order in which they were made.
#[derive(Drop)]
pub struct ChangeLog {
    bytes: Vec<u8>,
    // the row beside which those of the next call are written
    base: Row,
}

impl Model for ChangeLog {
    ghost use Rattle.std.specs.Prelude.{List};
    ghost use Rattle.wm_traits.specs.declared.row.RowChange.{RowChange};
    ghost use Rattle.wm_outside.specs.ChangeLog.{read, IsAtEnd};

    ghost Value = { List (List RowChange) };

    ghost view = { λ log. (read log.bytes.items).calls };

    ghost invariant = { λ log. IsAtEnd log.base (read log.bytes.items) };
}

impl ChangeLog {
    /// The changes of no call.
    #[tactic(auto, using(crate::proofs::ChangeLog::read_none))]
    pub fn new(alloc: Global) -> ChangeLog
        ensures { result ≡ [] }
    {
        ChangeLog {
            bytes: Vec::new(alloc),
            base: no_row(alloc),
        }
    }

    /// Adds the changes of a call.
    pub fn push(&mut self, changes: &[RowChange]) -> Result<(), NoMemory>
        ensures ok { OnOk result (self.new ≡ self.old ++ changes.now ∷ []) }
        ensures err { OnErr result (self.new ≡ self.old) }
    {
        let base = new_base(changes)?;
        let len = self.bytes.len();
        if let Err(fault) = write_call(&mut self.bytes, &self.base, changes) {
            self.bytes.truncate(len);
            return Err(fault);
        }
        if let Some(row) = base {
            self.base = row;
        }
        Ok(())
    }

    /// Makes all changes of rows, in their order. Where it answers `NoMemory`, the rows are of no use.
    pub fn change(&self, rows: &mut Vec<Row>) -> Result<(), NoMemory>
        ensures { OnOk result (rows.new.items ≡ tables_after rows.old.items self.now) }
    {
        make_all(rows, &self.bytes)?;
        Ok(())
    }
}
