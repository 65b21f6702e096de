// Runs one after another over one store, by one call, and what a run makes of tables that the store has had. What is given is
// given to the last run, as `line` adds a line to its input and `fail read 2` fails a read of it; `next` begins one more. The
// words, the rows, the clock, and the calls of the output and of the keeper that fail are those of the first. `runs` runs them all
// over a store that keeps all its tables, `runs in memory` over one that keeps the last, whose keeper may fail, and `over 2` over
// the tables of number 2. `images` tells how many tables there were, `image 2 11` shows the rows of one table of those of number
// 2, `log 2` the history of the second run, `asked` what the spawners were asked, and `written` what was written.
use crate::given::{Failing, unknown};
use crate::rows;
use crate::several::Several;
use anyhow::{Context, Result, bail, ensure};
use std::alloc::Global;
use std::mem;
use std::sync::Wait;
use wm_cases::Subject;
use wm_outside::ImageStore;
use wm_traits::{Row, are_in_order};

/// The runs, and the store of the last ones that keeps all its tables.
#[derive(Drop)]
pub struct Stops<'a, W: Wait> {
    alloc: Global,
    several: Several<'a, W>,
    store: ImageStore,
}

fn store_of(rows: Vec<Row>) -> Result<ImageStore> {
    ensure!(are_in_order(&rows), "rows that aren't in order");
    Ok(ImageStore::new(rows))
}

impl<'a, W: Wait> Stops<'a, W> {
    /// No run yet, and nothing given.
    pub fn new(rt: &'a W, alloc: Global) -> Result<Stops<'a, W>> {
        Ok(Stops {
            alloc,
            several: Several::new(rt, alloc),
            store: store_of(Vec::new(alloc))?,
        })
    }

    fn run_over_images(&mut self, answer: &mut String) -> Result<()> {
        let rows = self.several.first()?.rows.to_vec(self.alloc)?;
        drop(mem::replace(&mut self.store, store_of(rows)?));
        self.several.run_all(&mut self.store, answer)
    }

    fn run_in_memory(&mut self, answer: &mut String) -> Result<()> {
        let first = self.several.first()?;
        let fails = first.fails(self.alloc, Failing::Apply)?;
        let mut store = rows::store_of(first.rows.to_vec(self.alloc)?, fails)?;
        let ran = self.several.run_all(&mut store, answer);
        drop(store);
        ran
    }

    // Runs over tables that the store has had.
    fn run_over(&mut self, number: &str, answer: &mut String) -> Result<()> {
        let rows = self
            .store
            .image(number.parse::<u32>()?)
            .context("no such tables")?;
        let mut store = store_of(rows.to_vec(self.alloc)?)?;
        let ran = self.several.run_all(&mut store, answer);
        drop(store);
        ran
    }

    fn images(&self, answer: &mut String) -> Result<()> {
        for count in 0..u32::MAX {
            if self.store.image(count).is_none() {
                writeln!(answer, "{count}")?;
                return Ok(());
            }
        }
        bail!("more tables than can be counted")
    }

    // Shows the rows of `2 11`.
    fn image(&self, of: &str, answer: &mut String) -> Result<()> {
        let (number, tab) = of.split_once(' ').context("no table")?;
        let tab = tab.parse::<u8>()?;
        let rows = self
            .store
            .image(number.parse::<u32>()?)
            .context("no such tables")?;
        for row in rows {
            if row.tab == tab {
                writeln!(answer, "{}|{}|{}", row.tab, row.key, row.body)?;
            }
        }
        Ok(())
    }

    fn show_written(&self, answer: &mut String) -> Result<()> {
        let text = String::from_utf8_lossy(self.alloc, &self.several.written)?;
        answer.push_str(text.as_str())?;
        Ok(())
    }

    // Answers a question of one word.
    fn show(&mut self, question: &str, answer: &mut String) -> Result<()> {
        match question {
            "next" => self.several.next(),
            "runs" => self.run_over_images(answer),
            "images" => self.images(answer),
            "asked" => Ok(answer.push_str(self.several.asked.as_str())?),
            "written" => self.show_written(answer),
            _ => unknown(answer),
        }
    }
}

impl<'a, W: Wait> Subject for Stops<'a, W> {
    fn begin(&mut self) -> Result<()> {
        drop(mem::replace(&mut self.store, store_of(Vec::new(self.alloc))?));
        self.several.begin()
    }

    fn answer(&mut self, question: &str, answer: &mut String) -> Result<()> {
        match question.split_once(' ') {
            None => self.show(question, answer),
            Some(("runs", "in memory")) => self.run_in_memory(answer),
            Some(("over", number)) => self.run_over(number, answer),
            Some(("image", of)) => self.image(of, answer),
            Some(("log", number)) => Ok(answer.push_str(self.several.log(number)?)?),
            Some((word, text)) => self.several.give(word, text, answer),
        }
    }
}
