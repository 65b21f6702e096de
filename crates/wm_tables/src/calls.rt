// What a call changes of objects, entries and held queues.
ghost use Rattle.std.specs.Prelude.{◌≡◌, IfOk, Some, option_map};
ghost use Rattle.wm_desc.specs.Table.{object_named};
ghost use Rattle.wm_traits.specs.declared.row.RowChange.TheVariants.{Put};
ghost use Rattle.wm_rows.specs.Places.{numbered_place};
ghost use Rattle.wm_rows.specs.Rows.{command_row, held_row};
ghost use Rattle.wm_tables.specs.Changes.{number_in, number_of, removed_number, deletion, command_change, is_accepted, call_change};

use std::alloc::Global;
use wm_base::{NoMemory, QName};
use wm_desc::Objects;
use wm_law::{Call, Command, Reply};
use wm_rows::{
    HELD, Place, QUEUE_ENTRIES, ROUTE_ENTRIES, auto_place, command_row, held_row, numbered_place,
    object_place, pre_place,
};
use wm_traits::RowChange;

fn number_in(objects: &Objects, sbsd: &QName, jobq: &QName) -> Option<u32>
    ensures { result ≡ number_in jobq.now (object_named sbsd.now objects.now.sbsds) }
{
    match objects.sbsds.object(sbsd) {
        None => None,
        Some(description) => match description.queues.for_queue(jobq) {
            None => None,
            Some(entry) => Some(entry.seq),
        },
    }
}

fn number_of(objects: &Objects, command: &Command) -> Option<u32>
    ensures { result ≡ number_of objects.now command.now }
{
    match command {
        Command::Rmvjobqe(c) => number_in(objects, &c.sbsd, &c.jobq),
        _ => None,
    }
}

/// The number of the entry that a call removes by naming its queue, as it is before the step. The row of the entry is found by
/// it.
pub fn removed_number(objects: &Objects, call: &Call) -> Option<u32>
    ensures { result ≡ removed_number objects.now call.now }
{
    match call {
        Call::Change { user: _, command } => number_of(objects, command.get()),
        _ => None,
    }
}

fn deletion(place: Place) -> RowChange
    ensures { result ≡ deletion place }
{
    RowChange::Del(place.tab, place.key)
}

fn number_deletion(
    alloc: Global,
    sbsd: &QName,
    number: Option<u32>,
) -> Result<Option<RowChange>, NoMemory>
    ensures { IfOk result (λ change. change ≡ option_map (λ n. deletion (numbered_place 6 sbsd.now n)) number) }
{
    match number {
        None => Ok(None),
        Some(number) => {
            let place = numbered_place(alloc, QUEUE_ENTRIES, sbsd, number)?;
            Ok(Some(deletion(place)))
        }
    }
}

fn made_put(alloc: Global, command: &Command) -> Result<Option<RowChange>, NoMemory>
    ensures { IfOk result (λ change. change ≡ option_map (λ row. Put row) (command_row command.now)) }
{
    match command_row(alloc, command)? {
        None => Ok(None),
        Some(row) => Ok(Some(RowChange::Put(row))),
    }
}

fn command_change(
    alloc: Global,
    number: Option<u32>,
    command: &Command,
) -> Result<Option<RowChange>, NoMemory>
    ensures { IfOk result (λ change. change ≡ command_change number command.now) }
{
    let place = match command {
        Command::Rmvjobqe(c) => return number_deletion(alloc, &c.sbsd, number),
        Command::Rmvrtge(c) => numbered_place(alloc, ROUTE_ENTRIES, &c.sbsd, c.seqnbr)?,
        Command::Rmvaje(c) => auto_place(alloc, &c.sbsd, &c.job)?,
        Command::Rmvpje(c) => pre_place(alloc, &c.sbsd, &c.pgm)?,
        Command::Hldjobq(c) => return Ok(Some(RowChange::Put(held_row(alloc, &c.jobq)?))),
        Command::Rlsjobq(c) => object_place(alloc, HELD, &c.jobq)?,
        _ => return made_put(alloc, command),
    };
    Ok(Some(deletion(place)))
}

fn is_accepted(reply: &Reply) -> bool
    ensures { result ≡ is_accepted reply.now }
{
    matches!(reply, Reply::Made | Reply::QueueHeld | Reply::QueueReleased)
}

/// What a call changes, where its reply accepts it. An `Err` is want of memory.
pub(crate) fn call_change(
    alloc: Global,
    number: Option<u32>,
    call: &Call,
    reply: &Reply,
) -> Result<Option<RowChange>, NoMemory>
    ensures { IfOk result (λ change. change ≡ call_change number call.now reply.now) }
{
    match call {
        Call::Change { user: _, command } => {
            if is_accepted(reply) {
                command_change(alloc, number, command.get())
            } else {
                Ok(None)
            }
        }
        _ => Ok(None),
    }
}
