// What is written of changes: their bytes where the base has others, and else how far they are those of the base.
ghost use Rattle.std.specs.Prelude.{◌≡◌, ◌<◌, ◌≤◌, ◌∷◌, [], ◌++◌, length, take, drop, OnOk};
ghost use Rattle.wm_base.specs.Text.{IsText};
ghost use Rattle.wm_outside.specs.ChangeLog.{read, reads, between, base_after, IsBetween, IsAtEnd};
ghost use Rattle.wm_traits.specs.declared.row.RowChange.TheVariants.{Put, Del};
ghost use Rattle.wm_outside.specs.declared.memory.sign.TheConstants.{MOST};
ghost use Rattle.wm_outside.specs.Signs.{IsSign, IsTextSign};
ghost use Rattle.wm_outside.specs.Writing.{said_by, taken_by, with_tab, with_text, with_change, with_changes, IsNext, StartsWith};

use super::sign::{MOST, Sign, TextSign, byte_of};
use wm_base::{NoMemory, Text};
use wm_traits::{Row, RowChange};

// How many bytes two texts begin with alike, as far as one sign tells it.
fn alike(text: &[u8], ahead: &[u8]) -> usize
    ensures most { result ≤ MOST }
    ensures text { result ≤ length text.now }
    ensures ahead { result ≤ length ahead.now }
    ensures alike { take result text.now ≡ take result ahead.now }
{
    let most = MOST.min(text.len()).min(ahead.len());
    for at in 0..most {
        if text[at] != ahead[at] {
            return at;
        }
    }
    most
}

// How many bytes of the base lie before the end of a value, where the text is at one and the base isn't.
fn to_value_end(text: &[u8], ahead: &[u8]) -> usize
    ensures most { result ≤ MOST }
    ensures ahead { result ≤ length ahead.now }
{
    if text.first() != Some(&b')') {
        return 0;
    }
    let most = MOST.min(ahead.len());
    for at in 0..most {
        if ahead[at] == b')' {
            return at;
        }
    }
    most
}

// What is written next of a text: what it shares with the base, and else its own byte. At the end of a value what the base
// has more there is left out, so that texts whose values differ in length meet again.
fn next_sign(text: &[u8], ahead: &[u8]) -> TextSign
    requires some { 0 < length text.now }
    requires text { IsText text.now }
    ensures next { IsNext text.now ahead.now result }
    ensures sign { IsTextSign result }
{
    let kept = alike(text, ahead);
    if kept > 0 {
        return TextSign::Kept(kept as u8);
    }
    let passed = to_value_end(text, ahead);
    if passed > 0 {
        return TextSign::Passed(passed as u8);
    }
    TextSign::Own(text[0])
}

fn said_by(sign: TextSign) -> usize
    ensures { result ≡ said_by sign }
{
    match sign {
        TextSign::Own(_) => 1,
        TextSign::Kept(count) => count as usize,
        TextSign::Passed(_) => 0,
    }
}

fn taken_by(sign: TextSign) -> usize
    ensures { result ≡ taken_by sign }
{
    match sign {
        TextSign::Own(_) => 0,
        TextSign::Kept(count) | TextSign::Passed(count) => count as usize,
    }
}

#[tactic(auto, using(crate::proofs::ChangeLog::read_said))]
fn write_sign(bytes: &mut Vec<u8>, sign: Sign) -> Result<(), NoMemory>
    requires { IsSign sign }
    ensures ok { OnOk result (read bytes.new.items ≡ reads (read bytes.old.items) sign) }
    ensures begins { StartsWith bytes.new.items bytes.old.items }
{
    bytes.push(byte_of(sign))?;
    Ok(())
}

/// The bytes behind so many.
#[tactic(auto, using(std::proofs::lemmas::List::take_rest))]
pub fn behind(bytes: &[u8], count: usize) -> &[u8]
    requires { count ≤ length bytes.now }
    ensures { result.now ≡ drop count bytes.now }
{
    &bytes[count..]
}

// Writes a text beside that of the base.
#[tactic(auto, using(crate::proofs::Writing::said_fits, crate::proofs::Writing::taken_fits))]
fn write_text(bytes: &mut Vec<u8>, text: &[u8], base: &[u8]) -> Result<(), NoMemory>
    requires text { IsText text.now }
    requires base { (read bytes.old.items).ahead ≡ base.now }
    ensures ok { OnOk result (read bytes.new.items
        ≡ with_text (read bytes.old.items) ((read bytes.old.items).text ++ text.now) (read bytes.new.items).ahead) }
    ensures begins { StartsWith bytes.new.items bytes.old.items }
{
    let mut left = text;
    let mut ahead = base;
    while !left.is_empty() {
        let sign = next_sign(left, ahead);
        write_sign(bytes, Sign::Text(sign))?;
        left = behind(left, said_by(sign));
        ahead = behind(ahead, taken_by(sign));
    }
    Ok(())
}

#[tactic(auto, using(crate::proofs::Writing::tab_in_digits, crate::proofs::Writing::starts_further))]
fn write_tab(bytes: &mut Vec<u8>, tab: u8) -> Result<(), NoMemory>
    ensures ok { OnOk result (read bytes.new.items ≡ with_tab (read bytes.old.items) tab) }
    ensures begins { StartsWith bytes.new.items bytes.old.items }
{
    write_sign(bytes, Sign::Digit(tab / 16))?;
    write_sign(bytes, Sign::Digit(tab % 16))?;
    Ok(())
}

fn write_put(bytes: &mut Vec<u8>, base: &Row, row: &Row) -> Result<(), NoMemory>
    requires { IsBetween base.now (read bytes.old.items) }
    ensures ok { OnOk result (read bytes.new.items ≡ with_change (read bytes.old.items) (Put row.now)) }
    ensures begins { StartsWith bytes.new.items bytes.old.items }
{
    write_tab(bytes, row.tab)?;
    write_text(bytes, row.key.as_bytes(), base.key.as_bytes())?;
    write_sign(bytes, Sign::KeyEnds)?;
    write_text(bytes, row.body.as_bytes(), base.body.as_bytes())?;
    write_sign(bytes, Sign::Put)?;
    Ok(())
}

fn write_deleted(bytes: &mut Vec<u8>, base: &Row, tab: u8, key: &Text) -> Result<(), NoMemory>
    requires { IsBetween base.now (read bytes.old.items) }
    ensures ok { OnOk result (read bytes.new.items ≡ with_change (read bytes.old.items) (Del tab key.now)) }
    ensures begins { StartsWith bytes.new.items bytes.old.items }
{
    write_tab(bytes, tab)?;
    write_text(bytes, key.as_bytes(), base.key.as_bytes())?;
    write_sign(bytes, Sign::Deleted)?;
    Ok(())
}

fn write_change(bytes: &mut Vec<u8>, base: &Row, change: &RowChange) -> Result<(), NoMemory>
    requires { IsBetween base.now (read bytes.old.items) }
    ensures ok { OnOk result (read bytes.new.items ≡ with_change (read bytes.old.items) change.now) }
    ensures begins { StartsWith bytes.new.items bytes.old.items }
{
    match change {
        RowChange::Put(row) => write_put(bytes, base, row),
        RowChange::Del(tab, key) => write_deleted(bytes, base, *tab, key),
    }
}

#[tactic(auto, using(crate::proofs::Writing::between_more, crate::proofs::Writing::changes_more, crate::proofs::Writing::starts_further))]
fn write_changes(bytes: &mut Vec<u8>, base: &Row, changes: &[RowChange]) -> Result<(), NoMemory>
    requires { IsBetween base.now (read bytes.old.items) }
    ensures ok { OnOk result (read bytes.new.items ≡ with_changes (read bytes.old.items) changes.now) }
    ensures begins { StartsWith bytes.new.items bytes.old.items }
{
    for change in changes {
        write_change(bytes, base, change)?;
    }
    Ok(())
}

/// Writes the changes of a call beside the base. Where it answers `NoMemory`, the bytes begin with those that were there.
pub fn write_call(bytes: &mut Vec<u8>, base: &Row, changes: &[RowChange]) -> Result<(), NoMemory>
    requires { IsAtEnd base.now (read bytes.old.items) }
    ensures ok { OnOk result (read bytes.new.items
        ≡ between (base_after changes.now base.now) [] ((read bytes.old.items).calls ++ changes.now ∷ [])) }
    ensures begins { StartsWith bytes.new.items bytes.old.items }
{
    write_changes(bytes, base, changes)?;
    write_sign(bytes, Sign::CallEnds)?;
    Ok(())
}
