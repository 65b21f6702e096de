// What the cases ask beside a floor:
//
// > row TAB|KEY|BODY     a row of the next keeper
// > keeper               a keeper of these rows, or of none; `keeper fail 2 3` fails at the second and third `apply`
// > open                 opens a floor over the keeper: `OPEN`, `BADROW N` or `KEEPERFAULT`; `open limit 3` with this limit
// > close                joins all passes and closes the floor, whose keeper is left to the next `open`
// > shut                 closes it with the passes as they are: `SHUT`, or `OUT N` where so many are out, and it stays open
// > rows TAB             the rows of a table
// > changed              the rows that went since this was last asked, or the keeper made, and those that came
// > spawner fail 1       a monitor that keeps nothing, and a spawner whose first kill fails
// > turn                 a turn of that monitor: how many calls it made, or its fault
// > asked                what that spawner was asked
// > script TEXT          a line of a script
// > every apply fails once      how many calls of `apply` the script makes, with each difference that it makes that one fails
//
// All others are asked of the open floor.
use super::asked::ask;
use super::failing::write_failing;
use super::rows::{write_missing, write_table};
use crate::calls::{NOW, OpenFloor};
use crate::opened::{NO_FLOOR, keeper_of, open, shut_down};
use crate::replies::{write_asked, write_monitor_fault, write_open_fault};
use crate::watch::{LAG, Watch};
use crate::words::{first_word, numbers, row, unknown};
use anyhow::{Context, Result};
use std::alloc::Global;
use std::sync::Wait;
use wm_base::Moment;
use wm_cases::Subject;
use wm_floor::{Closed, MONITOR};
use wm_outside::{MemKeeper, MemSpawner};
use wm_traits::{Keeper, Row};

const NO_KEEPER: &str = "no keeper";

const NO_SPAWNER: &str = "no spawner";

/// A keeper, or the floor over it.
pub struct Tested<'r, R> {
    rt: &'r R,
    alloc: Global,
    // The rows of the next keeper.
    rows: Vec<Row>,
    keeper: Option<MemKeeper>,
    floor: Option<OpenFloor>,
    watch: Option<Watch>,
    // The rows that were seen last.
    seen: Vec<Row>,
    script: Vec<String>,
}

impl<'r, R: Wait> Tested<'r, R> {
    pub fn new(rt: &'r R, alloc: Global) -> Tested<'r, R> {
        Tested {
            rt,
            alloc,
            rows: Vec::new(alloc),
            keeper: None,
            floor: None,
            watch: None,
            seen: Vec::new(alloc),
            script: Vec::new(alloc),
        }
    }

    /// Closes what is open.
    pub fn end(self) {
        let Tested {
            rt: _,
            alloc: _,
            rows,
            keeper,
            floor,
            watch,
            seen,
            script,
        } = self;
        shut_down(floor);
        drop((rows, keeper, watch, seen, script));
    }

    fn keep(&mut self, words: &str) -> Result<()> {
        let rows = self.rows.to_vec(self.alloc)?;
        self.seen = self.rows.to_vec(self.alloc)?;
        let fail = numbers(self.alloc, words, "fail")?;
        let keeper = keeper_of(rows, fail)?;
        drop(self.keeper.replace(keeper));
        Ok(())
    }

    fn open(&mut self, words: &str, answer: &mut String) -> Result<()> {
        let keeper = self.keeper.take().context(NO_KEEPER)?;
        match open(self.alloc, keeper, words)? {
            Ok(floor) => {
                shut_down(self.floor.replace(floor));
                Ok(answer.push_str("OPEN\n")?)
            }
            Err((keeper, fault)) => {
                drop(self.keeper.replace(keeper));
                write_open_fault(fault, answer)
            }
        }
    }

    // Takes the keeper of a floor that was closed.
    fn take(&mut self, closed: Closed<MemKeeper>) {
        let Closed { log, keeper } = closed;
        drop(log);
        drop(self.keeper.replace(keeper));
    }

    fn close(&mut self) -> Result<()> {
        let floor = self.floor.take().context(NO_FLOOR)?;
        self.take(floor.close());
        Ok(())
    }

    fn shut(&mut self, answer: &mut String) -> Result<()> {
        let floor = self.floor.take().context(NO_FLOOR)?;
        match floor.shut() {
            Ok(closed) => {
                self.take(closed);
                Ok(answer.push_str("SHUT\n")?)
            }
            Err(floor) => {
                let out = floor.out();
                shut_down(self.floor.replace(floor));
                Ok(writeln!(answer, "OUT {out}")?)
            }
        }
    }

    fn loaded(&mut self) -> Result<Vec<Row>> {
        let keeper = self.keeper.as_mut().context(NO_KEEPER)?;
        Ok(keeper.load()?)
    }

    fn table(&mut self, tab: &str, answer: &mut String) -> Result<()> {
        let tab = tab.parse::<u8>()?;
        write_table(&self.loaded()?, tab, answer)
    }

    fn changed(&mut self, answer: &mut String) -> Result<()> {
        let rows = self.loaded()?;
        write_missing("- ", &self.seen, &rows, answer)?;
        write_missing("+ ", &rows, &self.seen, answer)?;
        self.seen = rows;
        Ok(())
    }

    fn add_row(&mut self, written: &str) -> Result<()> {
        Ok(self.rows.push(row(self.alloc, written)?)?)
    }

    fn add_line(&mut self, line: &str) -> Result<()> {
        Ok(self.script.push(String::from_str(self.alloc, line)?)?)
    }

    fn make_spawner(&mut self, words: &str) -> Result<()> {
        let kills = numbers(self.alloc, words, "fail")?;
        let (starts, looks) = (Vec::new(self.alloc), Vec::new(self.alloc));
        let spawner = MemSpawner::new(self.alloc, LAG, starts, kills, looks);
        let mut watch = Watch::new(self.alloc);
        watch.take(spawner);
        drop(self.watch.replace(watch));
        Ok(())
    }

    fn turn(&mut self, answer: &mut String) -> Result<()> {
        let floor = self.floor.as_mut().context(NO_FLOOR)?;
        let watch = self.watch.as_mut().context(NO_SPAWNER)?;
        match floor.turn(self.rt, self.alloc, MONITOR, watch, Moment::new(NOW))? {
            Ok(turned) => Ok(writeln!(answer, "{} calls", turned.sent)?),
            Err(fault) => write_monitor_fault(fault, answer),
        }
    }

    fn write_asked(&self, answer: &mut String) -> Result<()> {
        let watch = self.watch.as_ref().context(NO_SPAWNER)?;
        write_asked(watch.asked(), answer)
    }

    fn ask_floor(&mut self, question: &str, answer: &mut String) -> Result<()> {
        match &mut self.floor {
            None => unknown(question),
            Some(floor) => ask(self.rt, self.alloc, floor, question, answer),
        }
    }
}

impl<R: Wait> Subject for Tested<'_, R> {
    fn begin(&mut self) -> Result<()> {
        shut_down(self.floor.take());
        // Calls let the old ones go: what is let go in place is proved field by field.
        drop(self.keeper.take());
        drop(self.watch.take());
        self.rows.clear();
        self.seen.clear();
        self.script.clear();
        Ok(())
    }

    fn answer(&mut self, question: &str, answer: &mut String) -> Result<()> {
        let (word, words) = first_word(question);
        match word {
            "row" => self.add_row(words),
            "keeper" => self.keep(words),
            "open" => self.open(words, answer),
            "close" => self.close(),
            "shut" => self.shut(answer),
            "rows" => self.table(words, answer),
            "changed" => self.changed(answer),
            "spawner" => self.make_spawner(words),
            "turn" => self.turn(answer),
            "asked" => self.write_asked(answer),
            "script" => self.add_line(words),
            "every" => write_failing(self.rt, self.alloc, &self.script, answer),
            _ => self.ask_floor(question, answer),
        }
    }
}
