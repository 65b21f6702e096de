// A store in SQLite, and the calls of its keepers.
use super::rows::{answer_fault, answer_number, answer_rows, apply};
use super::words::{first_word, unknown};
use anyhow::{Result, anyhow};
use std::fs;
use std::rt::HostRuntime;
use wm_cases::Subject;
use wm_sqlkeep::{OpenedKeeper, SqlStore};
use wm_traits::{Keeper, Store};

// Puts a copy of the file in the place of the store's, without a log.
fn put_file(rt: &HostRuntime, file: &str) -> Result<()> {
    let _ = fs::remove_file(rt, LOG);
    fs::copy(rt, file, STORE)?;
    Ok(())
}

// Answers the rows, a line each, or that there are none.
fn load(keeper: &mut OpenedKeeper, answer: &mut String) -> Result<()> {
    match keeper.load() {
        Ok(rows) if rows.is_empty() => Ok(answer.push_str("NO ROWS\n")?),
        Ok(rows) => answer_rows(&rows, answer),
        Err(fault) => answer_fault(fault, answer),
    }
}

/// The files that a case may use. A case begins without them.
const STORE: &str = "rows.db";

const LOG: &str = "rows.db-wal";

/// A store, and its keeper while one is out.
#[derive(Drop)]
pub struct SqlCases<'a> {
    rt: &'a HostRuntime,
    store: SqlStore,
    keeper: Option<OpenedKeeper>,
}

impl<'a> SqlCases<'a> {
    pub fn new(rt: &'a HostRuntime) -> SqlCases<'a> {
        SqlCases {
            rt,
            store: SqlStore::new(rt),
            keeper: None,
        }
    }

    // A keeper that is out stays so where the opening fails.
    fn open(&mut self, path: &str, answer: &mut String) -> Result<()> {
        match self.store.open(path) {
            Ok(keeper) => {
                drop(self.keeper.replace(keeper));
                answer.push_str("OPENED\n")?;
            }
            Err(fault) => answer_fault(fault, answer)?,
        }
        Ok(())
    }

    fn close(&mut self) -> Result<()> {
        let keeper = self.keeper.take().ok_or(anyhow!("no keeper is out"))?;
        self.store.close(keeper);
        Ok(())
    }

    // Answers `apply put 1 A = x | del 1 A`, `load` and `keeper_faults` of the keeper that is out.
    fn ask_keeper(&mut self, word: &str, rest: &str, answer: &mut String) -> Result<()> {
        let keeper = self.keeper.as_mut().ok_or(anyhow!("no keeper is out"))?;
        match word {
            "apply" => apply(self.rt.alloc(), keeper, rest, answer),
            "load" => load(keeper, answer),
            "keeper_faults" => answer_number(keeper.faults(), answer),
            _ => unknown(word),
        }
    }
}

impl Subject for SqlCases<'_> {
    fn begin(&mut self) -> Result<()> {
        drop(self.keeper.take());
        self.store = SqlStore::new(self.rt);
        let _ = fs::remove_file(self.rt, STORE);
        let _ = fs::remove_file(self.rt, LOG);
        Ok(())
    }

    // `open PATH`, `close`, `store_faults`, `given FILE`, a file that another program has made, and the questions of a keeper.
    fn answer(&mut self, question: &str, answer: &mut String) -> Result<()> {
        let (word, rest) = first_word(question);
        match word {
            "open" => self.open(rest, answer),
            "close" => self.close(),
            "store_faults" => answer_number(self.store.faults(), answer),
            "given" => put_file(self.rt, rest),
            _ => self.ask_keeper(word, rest, answer),
        }
    }
}
