// The rows of held queues.
ghost use Rattle.std.specs.Prelude.{◌≡◌, IfOk, IfSome, Some};
ghost use Rattle.wm_base.specs.QName.{qname_text};
ghost use Rattle.wm_base.specs.declared.qname.QName.{QName};
ghost use Rattle.wm_law.specs.Fit.{IsQName};
ghost use Rattle.wm_rows.specs.Rows.{held_row};

use crate::place::HELD;
use std::alloc::Global;
use wm_base::{NoMemory, QName, Text};
use wm_clwords::{Item, Span, push_qname, read_object};
use wm_traits::Row;

/// The row of a queue that is held. An `Err` is want of memory.
pub fn held_row(alloc: Global, jobq: &QName) -> Result<Row, NoMemory>
    ensures { IfOk result (λ row. row ≡ held_row jobq.now) }
{
    let mut key = Text::new(alloc);
    push_qname(&mut key, jobq)?;
    let mut body = Text::new(alloc);
    body.push_bytes(b"HELD")?;
    Ok(Row {
        tab: HELD,
        key,
        body,
    })
}

fn is_qualified(name: &QName)
    ensures { IsQName name.now }
{
    name.lib.as_bytes();
    name.name.as_bytes();
}

/// The qualified name that a key is, if it is one. Some other keys are read too. An `Err` is want of memory.
pub fn read_name(key: &Text) -> Result<Option<QName>, NoMemory>
    ensures fitting { IfOk result (λ o. IfSome o IsQName) }
    ensures exactly { IfOk result (λ o. (q : QName) → IsQName q → key.now ≡ qname_text q → o ≡ Some q) }
{
    let item = Item::Quoted(Span { place: 0, len: 0 }, key.clone()?);
    match read_object(&item) {
        None => Ok(None),
        Some(name) => {
            is_qualified(&name);
            Ok(Some(name))
        }
    }
}
