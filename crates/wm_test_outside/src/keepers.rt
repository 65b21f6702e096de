// A store in memory, and the calls of its keeper.
use super::rows::{answer_fault, answer_number, answer_rows, apply, rows};
use super::words::{failing, first_word, named, unknown};
use anyhow::{Context, Result, bail, ensure};
use std::alloc::Global;
use wm_outside::{MemKeeper, MemStore};
use wm_traits::{Keeper, Store, are_in_order};

const NO_KEEPER: &str = "no keeper is out";

// Answers the rows, a line each.
fn load<K: Keeper>(keeper: &mut K, answer: &mut String) -> Result<()> {
    match keeper.load() {
        Ok(rows) => answer_rows(&rows, answer),
        Err(fault) => answer_fault(fault, answer),
    }
}

// Answers of the keeper that is out `apply put 1 A = x | del 1 A`, `load` and `keeper_faults`.
fn ask_keeper(
    alloc: Global,
    keeper: &mut MemKeeper,
    question: &str,
    answer: &mut String,
) -> Result<()> {
    let (word, rest) = first_word(question);
    match word {
        "apply" => apply(alloc, keeper, rest, answer),
        "load" => load(keeper, answer),
        "keeper_faults" => answer_number(keeper.faults(), answer),
        _ => unknown(question),
    }
}

/// A store in memory, and its keeper while that is out.
#[derive(Drop)]
pub struct Keepers {
    store: MemStore,
    out: Option<MemKeeper>,
}

impl Keepers {
    /// The store of no rows, whose keeper doesn't fail.
    pub fn empty(alloc: Global) -> Keepers {
        Keepers {
            store: MemStore::new(MemKeeper::new(Vec::new(alloc), Vec::new(alloc))),
            out: None,
        }
    }

    /// The store of `rows 1 A = x | 1 B = y, failing 2`, whose keeper fails at these calls of `apply`.
    pub fn new(alloc: Global, options: &str) -> Result<Keepers> {
        let rows = match named(options, "rows ") {
            Some(words) => rows(alloc, words)?,
            None => Vec::new(alloc),
        };
        ensure!(are_in_order(&rows), "rows that aren't in order");
        Ok(Keepers {
            store: MemStore::new(MemKeeper::new(rows, failing(alloc, options, "failing ")?)),
            out: None,
        })
    }

    fn open(&mut self, answer: &mut String) -> Result<()> {
        match self.store.open("") {
            Ok(keeper) => {
                drop(self.out.replace(keeper));
                Ok(answer.push_str("OPENED\n")?)
            }
            Err(fault) => answer_fault(fault, answer),
        }
    }

    fn close(&mut self) -> Result<()> {
        let keeper = self.out.take().context(NO_KEEPER)?;
        self.store.close(keeper);
        Ok(())
    }

    fn ask_out(&mut self, alloc: Global, question: &str, answer: &mut String) -> Result<()> {
        match &mut self.out {
            None => bail!(NO_KEEPER),
            Some(keeper) => ask_keeper(alloc, keeper, question, answer),
        }
    }

    /// Answers `open`, `close` and `store_faults`, and of the keeper that is out `apply put 1 A = x | del 1 A`, `load` and
    /// `keeper_faults`.
    pub fn ask(&mut self, alloc: Global, question: &str, answer: &mut String) -> Result<()> {
        let (word, _) = first_word(question);
        match word {
            "open" => self.open(answer),
            "close" => self.close(),
            "store_faults" => answer_number(self.store.faults(), answer),
            _ => self.ask_out(alloc, question, answer),
        }
    }
}
