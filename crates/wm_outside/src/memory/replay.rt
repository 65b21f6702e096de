// What reads a log of changes, and makes them.
ghost use Rattle.std.specs.Prelude.{◌≡◌, ◌+◌, ◌*◌, ◌%◌, [], ◌∷◌, ◌++◌, take, drop, OnOk, IfOk};
ghost use Rattle.std.specs.Option.{unwrap_or};
ghost use Rattle.wm_base.specs.Text.{IsText};
ghost use Rattle.wm_outside.specs.ChangeLog.{read, no_row, base_after};
ghost use Rattle.wm_outside.specs.Log.{tables_after};
ghost use Rattle.wm_traits.specs.Rows.{changed};

use super::sign::{Sign, TextSign, sign_of};
use super::tables::change;
use super::writing::behind;
use std::alloc::Global;
use std::mem;
use wm_base::{NoMemory, Text};
use wm_traits::{Row, RowChange};

/// How far a log has been read, with the changes of the call at which it is.
#[derive(Drop)]
pub struct Replay {
    base: Row,
    ahead: Text,
    tab: u8,
    key: Text,
    text: Text,
    changes: Vec<RowChange>,
}

/// The base of the first call.
pub fn no_row(alloc: Global) -> Row
    ensures { result ≡ no_row }
{
    Row {
        tab: 0,
        key: Text::new(alloc),
        body: Text::new(alloc),
    }
}

/// The base of the rows behind a call, unless it is that of the call's own rows.
pub fn new_base(changes: &[RowChange]) -> Result<Option<Row>, NoMemory>
    ensures { (base : Row) → IfOk result (λ row. unwrap_or row base ≡ base_after changes.now base) }
{
    for change in changes {
        if let RowChange::Put(row) = change {
            return Ok(Some(row.clone()?));
        }
    }
    Ok(None)
}

/// Makes changes of rows, in their order. Where it answers `NoMemory`, they are of no use.
pub(super) fn change_all(rows: &mut Vec<Row>, changes: &[RowChange]) -> Result<(), NoMemory>
    ensures { OnOk result (rows.new.items ≡ changed changes.now rows.old.items) }
{
    for one in changes {
        change(rows, one.clone()?)?;
    }
    Ok(())
}

impl Replay {
    ghost use Rattle.std.specs.Prelude.{List};
    ghost use Rattle.wm_outside.specs.ChangeLog.{Reading, reads, reads_text, between};
    ghost use Rattle.wm_outside.specs.Replay.{IsAt};
    ghost use Rattle.wm_outside.specs.Signs.{IsSign, IsTextSign};
    ghost use Rattle.wm_outside.specs.declared.memory.sign.Sign.TheVariants.{Text, Digit, KeyEnds, Put, Deleted, CallEnds};
    ghost use Rattle.wm_outside.specs.declared.memory.sign.TextSign.TheVariants.{Own, Kept, Passed};
    ghost use Rattle.wm_traits.specs.declared.row.Row.{Row};

    /// Nothing is read yet.
    pub fn new(alloc: Global) -> Replay
        ensures { IsAt result (between no_row [] []) }
    {
        Replay {
            base: no_row(alloc),
            ahead: Text::new(alloc),
            tab: 0,
            key: Text::new(alloc),
            text: Text::new(alloc),
            changes: Vec::new(alloc),
        }
    }

    fn own(&mut self, byte: u8) -> Result<(), NoMemory>
        requires { IsText (byte ∷ []) }
        ensures { (r : Reading) → IsAt self.old r → OnOk result (IsAt self.new (reads_text r (Own byte))) }
    {
        self.text.push_bytes(&[byte])?;
        Ok(())
    }

    #[tactic(auto, using(crate::proofs::Texts::text_dropped, crate::proofs::Texts::dropped_at_most))]
    fn pass(&mut self, alloc: Global, count: usize) -> Result<(), NoMemory>
        ensures { OnOk result (self.new ≡ record self.old { ahead = drop count self.old.ahead }) }
    {
        let passed = count.min(self.ahead.len());
        self.ahead = Text::from_bytes(alloc, behind(self.ahead.as_bytes(), passed))?;
        Ok(())
    }

    #[tactic(auto, using(crate::proofs::Texts::text_taken, crate::proofs::Texts::taken_at_most))]
    fn keep(&mut self, alloc: Global, count: usize) -> Result<(), NoMemory>
        ensures { OnOk result (self.new ≡ record self.old { text = self.old.text ++ take count self.old.ahead; ahead = drop count self.old.ahead }) }
    {
        let kept = count.min(self.ahead.len());
        self.text.push_bytes(&self.ahead.as_bytes()[..kept])?;
        self.pass(alloc, count)?;
        Ok(())
    }

    fn go_on(&mut self, alloc: Global, sign: TextSign) -> Result<(), NoMemory>
        requires { IsTextSign sign }
        ensures { (r : Reading) → IsAt self.old r → OnOk result (IsAt self.new (reads_text r sign)) }
    {
        match sign {
            TextSign::Own(byte) => self.own(byte),
            TextSign::Kept(count) => self.keep(alloc, count as usize),
            TextSign::Passed(count) => self.pass(alloc, count as usize),
        }
    }

    fn digit(&mut self, digit: u8)
        ensures { self.new ≡ record self.old { tab = self.old.tab % 16 * 16 + digit % 16 } }
    {
        self.tab = self.tab % 16 * 16 + digit % 16;
    }

    fn end_key(&mut self, alloc: Global) -> Result<(), NoMemory>
        ensures { OnOk result (self.new ≡ record self.old { key = self.old.text; text = []; ahead = self.old.base.body }) }
    {
        self.ahead = self.base.body.clone()?;
        self.key = mem::replace(&mut self.text, Text::new(alloc));
        Ok(())
    }

    // Nothing is read yet of the next change.
    fn begin(&mut self, alloc: Global) -> Result<(), NoMemory>
        ensures { OnOk result (self.new ≡ record self.old { ahead = self.old.base.key; tab = 0; key = []; text = [] }) }
    {
        self.ahead = self.base.key.clone()?;
        self.tab = 0;
        self.key = Text::new(alloc);
        self.text = Text::new(alloc);
        Ok(())
    }

    fn add(&mut self, alloc: Global, change: RowChange) -> Result<(), NoMemory>
        ensures { (r : Reading) → IsAt self.old r → OnOk result (IsAt self.new (between r.base (r.changes ++ change ∷ []) r.calls)) }
    {
        self.changes.push(change)?;
        self.begin(alloc)?;
        Ok(())
    }

    fn put(&mut self, alloc: Global) -> Result<(), NoMemory>
        ensures { (r : Reading) → IsAt self.old r → OnOk result (IsAt self.new (reads r Put)) }
    {
        let row = Row {
            tab: self.tab,
            key: self.key.clone()?,
            body: self.text.clone()?,
        };
        self.add(alloc, RowChange::Put(row))?;
        Ok(())
    }

    fn delete(&mut self, alloc: Global) -> Result<(), NoMemory>
        ensures { (r : Reading) → IsAt self.old r → OnOk result (IsAt self.new (reads r Deleted)) }
    {
        let key = self.text.clone()?;
        self.add(alloc, RowChange::Del(self.tab, key))?;
        Ok(())
    }

    fn end_call(&mut self, alloc: Global, rows: &mut Vec<Row>) -> Result<(), NoMemory>
        ensures at { (r : Reading) → IsAt self.old r → OnOk result (IsAt self.new (reads r CallEnds)) }
        ensures rows { OnOk result (rows.new.items ≡ changed self.old.changes.items rows.old.items) }
    {
        change_all(rows, &self.changes)?;
        if let Some(row) = new_base(&self.changes)? {
            self.base = row;
        }
        self.changes.clear();
        self.begin(alloc)?;
        Ok(())
    }

    /// Reads one sign more. At the end of a call its changes are made of rows.
    pub fn read(&mut self, sign: Sign, rows: &mut Vec<Row>) -> Result<(), NoMemory>
        requires { IsSign sign }
        ensures at { (r : Reading) → IsAt self.old r → OnOk result (IsAt self.new (reads r sign)) }
        ensures rows { (r : Reading) (began : List Row) → IsAt self.old r → rows.old.items ≡ tables_after began r.calls
            → OnOk result (rows.new.items ≡ tables_after began (reads r sign).calls) }
    {
        let alloc = *rows.allocator();
        match sign {
            Sign::Text(sign) => self.go_on(alloc, sign),
            Sign::Digit(digit) => {
                self.digit(digit);
                Ok(())
            }
            Sign::KeyEnds => self.end_key(alloc),
            Sign::Put => self.put(alloc),
            Sign::Deleted => self.delete(alloc),
            Sign::CallEnds => self.end_call(alloc, rows),
        }
    }
}

/// Makes the changes that a log has, in their order.
#[tactic(auto, using(crate::proofs::ChangeLog::read_none))]
pub fn make_all(rows: &mut Vec<Row>, bytes: &[u8]) -> Result<(), NoMemory>
    ensures { OnOk result (rows.new.items ≡ tables_after rows.old.items (read bytes.now).calls) }
{
    let mut replay = Replay::new(*rows.allocator());
    for byte in bytes {
        replay.read(sign_of(*byte), rows)?;
    }
    Ok(())
}
