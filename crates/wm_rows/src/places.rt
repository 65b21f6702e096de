// The places of things.
ghost use Rattle.std.specs.Prelude.{◌≡◌, ◌++◌, OnOk, IfOk, Some};
ghost use Rattle.wm_base.specs.Number.{zero_padded};
ghost use Rattle.wm_base.specs.QName.{qname_text};
ghost use Rattle.wm_rows.specs.Places.{object_place, entry_place, numbered_place, place_of};

use crate::place::{
    AUTO_ENTRIES, CLASSES, JOBDS, PRE_ENTRIES, PROGRAMS, Place, QUEUE_ENTRIES, QUEUES,
    ROUTE_ENTRIES, SBSDS,
};
use std::alloc::Global;
use wm_base::{Name, NoMemory, QName, Text};
use wm_clwords::push_qname;
use wm_law::Command;

// Four digits.
#[tactic(auto, using(wm_base::proofs::Texts::padded))]
fn push_four(alloc: Global, out: &mut Text, n: u32) -> Result<(), NoMemory>
    ensures { OnOk result (out.new ≡ out.old ++ zero_padded 4 n) }
{
    let digits = format!(in alloc; "{n:04}")?;
    out.push_bytes(digits.as_bytes())?;
    Ok(())
}

#[tactic(auto, using(wm_command::proofs::Texts::texts))]
fn push_name(out: &mut Text, name: &Name) -> Result<(), NoMemory>
    ensures { OnOk result (out.new ≡ out.old ++ name.now) }
{
    out.push_bytes(name.as_bytes())?;
    Ok(())
}

/// An object's place. An `Err` is want of memory.
pub fn object_place(alloc: Global, tab: u8, name: &QName) -> Result<Place, NoMemory>
    ensures { IfOk result (λ place. place ≡ object_place tab name.now) }
{
    let mut key = Text::new(alloc);
    push_qname(&mut key, name)?;
    Ok(Place { tab, key })
}

/// The place of an entry with a sequence number. An `Err` is want of memory.
pub fn numbered_place(alloc: Global, tab: u8, sbsd: &QName, seq: u32) -> Result<Place, NoMemory>
    ensures { IfOk result (λ place. place ≡ numbered_place tab sbsd.now seq) }
{
    let mut key = Text::new(alloc);
    push_qname(&mut key, sbsd)?;
    key.push_bytes(b" ")?;
    push_four(alloc, &mut key, seq)?;
    Ok(Place { tab, key })
}

/// The place of an autostart entry. An `Err` is want of memory.
pub fn auto_place(alloc: Global, sbsd: &QName, job: &Name) -> Result<Place, NoMemory>
    ensures { IfOk result (λ place. place ≡ entry_place 8 sbsd.now job.now) }
{
    let mut key = Text::new(alloc);
    push_qname(&mut key, sbsd)?;
    key.push_bytes(b" ")?;
    push_name(&mut key, job)?;
    Ok(Place {
        tab: AUTO_ENTRIES,
        key,
    })
}

/// The place of a prestart entry. An `Err` is want of memory.
pub fn pre_place(alloc: Global, sbsd: &QName, pgm: &QName) -> Result<Place, NoMemory>
    ensures { IfOk result (λ place. place ≡ entry_place 9 sbsd.now (qname_text pgm.now)) }
{
    let mut key = Text::new(alloc);
    push_qname(&mut key, sbsd)?;
    key.push_bytes(b" ")?;
    push_qname(&mut key, pgm)?;
    Ok(Place {
        tab: PRE_ENTRIES,
        key,
    })
}

/// The place of what a command makes, and None where no row is kept of that. An `Err` is want of memory.
pub fn place_of(alloc: Global, command: &Command) -> Result<Option<Place>, NoMemory>
    ensures { IfOk result (λ place. place ≡ place_of command.now) }
{
    let place = match command {
        Command::Crtcls(c) => object_place(alloc, CLASSES, &c.cls)?,
        Command::Crtpgmref(c) => object_place(alloc, PROGRAMS, &c.pgm)?,
        Command::Crtjobq(c) => object_place(alloc, QUEUES, &c.jobq)?,
        Command::Crtjobd(c) => object_place(alloc, JOBDS, &c.jobd)?,
        Command::Crtsbsd(c) => object_place(alloc, SBSDS, &c.sbsd)?,
        Command::Addjobqe(c) => numbered_place(alloc, QUEUE_ENTRIES, &c.sbsd, c.seqnbr)?,
        Command::Addrtge(c) => numbered_place(alloc, ROUTE_ENTRIES, &c.sbsd, c.seqnbr)?,
        Command::Addaje(c) => auto_place(alloc, &c.sbsd, &c.job)?,
        Command::Addpje(c) => pre_place(alloc, &c.sbsd, &c.pgm)?,
        _ => return Ok(None),
    };
    Ok(Some(place))
}
