// The history of a round, played again by the plain machine from nothing, beside what its threads recorded.
use crate::call::{again, call_of};
use crate::record::{Called, Record, Round, Watched, line_of};
use crate::watcher::push_asked;
use anyhow::{Context, Result, ensure};
use std::alloc::Global;
use wm_core::{Core, Setup};
use wm_desc::qbatch;
use wm_law::{Ask, Entry};
use wm_listing::listing;
use wm_views::Parts;
use wm_when::Offset;

fn opened(alloc: Global) -> Result<Core> {
    let setup = Setup {
        ctl: qbatch(),
        offset: Offset::new(0),
    };
    Ok(Core::opening(alloc, &setup)?)
}

// What a thread recorded at a place, if it has.
fn call_at(record: &Record, place: u32) -> Option<&Called> {
    record.calls.iter().find(|called| called.place == place)
}

// Who recorded a call at a place. Two records of one place are a fault, since one of them isn't the history's.
fn recorded(records: &[Record], place: u32) -> Result<Option<(&Record, &Called)>> {
    let mut found = None;
    for record in records {
        if let Some(called) = call_at(record, place) {
            ensure!(found.is_none(), "two threads were told place {place}");
            found = Some((record, called));
        }
    }
    Ok(found)
}

// The entry that the machine makes of a recorded call, in a line, which is also what the thread made of its answer.
fn command_line(
    alloc: Global,
    core: &mut Core,
    record: &Record,
    called: &Called,
) -> Result<Vec<u8>> {
    let call = call_of(alloc, &record.user, called.words.as_str())?;
    let reply = core.step(alloc, record.number, &call, called.moment)?;
    let entry = Entry {
        caller: record.number,
        call,
        moment: called.moment,
        reply,
    };
    let line = line_of(alloc, called.place, &entry)?;
    ensure!(line == called.line, "a thread was told another reply");
    Ok(line)
}

// The entry that the machine makes of a monitor's call, in a line.
fn report_line(alloc: Global, core: &mut Core, place: u32, entry: &Entry) -> Result<Vec<u8>> {
    let call = again(&entry.call).context("nobody has recorded this call")?;
    let reply = core.step(alloc, entry.caller, &call, entry.moment)?;
    let entry = Entry {
        caller: entry.caller,
        call,
        moment: entry.moment,
        reply,
    };
    line_of(alloc, place, &entry)
}

// Plays the call of a place, and compares its entry with the history's.
fn play(alloc: Global, core: &mut Core, round: &Round, place: u32, entry: &Entry) -> Result<()> {
    let line = match recorded(&round.records, place)? {
        Some((record, called)) => command_line(alloc, core, record, called)?,
        None => report_line(alloc, core, place, entry)?,
    };
    let stands = line_of(alloc, place, entry)?;
    ensure!(line == stands, "another entry stands at place {place}");
    Ok(())
}

// Compares what a thread was shown after so many entries with what the plain machine shows.
fn compare_looks(alloc: Global, core: &Core, record: &Record, at: u32) -> Result<()> {
    for looked in record.looks.iter() {
        if looked.at == at {
            let parts = Parts::new(core.objects(), core.jobs(), core.started(), core.held());
            let shown = parts.view(alloc, &Ask::Submitted(record.user))?;
            let wanted = listing(alloc, &shown)?;
            ensure!(
                looked.shown == wanted,
                "a look after {at} entries is another one"
            );
        }
    }
    Ok(())
}

fn compare_all_looks(alloc: Global, core: &Core, records: &[Record], at: u32) -> Result<()> {
    for record in records {
        compare_looks(alloc, core, record, at)?;
    }
    Ok(())
}

// Plays the whole history.
fn play_all(alloc: Global, core: &mut Core, round: &Round) -> Result<()> {
    let entries = u32::try_from(round.log.len())?;
    compare_all_looks(alloc, core, &round.records, 0)?;
    for at in 0..entries {
        let entry = round.log.entry(at as usize).context("no entry")?;
        play(alloc, core, round, at + 1, entry)?;
        compare_all_looks(alloc, core, &round.records, at + 1)?;
    }
    Ok(())
}

// Whether a monitor's own entries are those that it counted, and their orders those that its spawner was asked.
fn compare_watched(alloc: Global, round: &Round, number: u32, watched: &Watched) -> Result<()> {
    let (mut sent, mut asked) = (0u64, Vec::new(alloc));
    for at in 0..round.log.len() {
        let entry = round.log.entry(at).context("no entry")?;
        if entry.caller == number {
            sent = sent.saturating_add(1);
            if let Some(order) = entry.reply.order() {
                push_asked(alloc, &mut asked, order)?;
            }
        }
    }
    ensure!(sent == watched.sent, "monitor {number} made {sent} entries");
    ensure!(asked == watched.asked, "monitor {number} had other orders");
    Ok(())
}

// Whether the entries of each thread are as many as it recorded. That each stands where the thread was told is what the play has
// shown.
fn compare_records(alloc: Global, round: &Round) -> Result<()> {
    let mut entries = 0u64;
    for record in round.records.iter() {
        entries = entries.saturating_add(record.calls.len() as u64);
        if let Some(watched) = &record.watched {
            compare_watched(alloc, round, record.number, watched)?;
            entries = entries.saturating_add(watched.sent);
        }
    }
    ensure!(
        entries == round.log.len() as u64,
        "the history has other calls than were recorded"
    );
    Ok(())
}

/// Plays a round's history again.
pub fn replayed(alloc: Global, round: &Round) -> Result<()> {
    let mut core = opened(alloc)?;
    let played = play_all(alloc, &mut core, round);
    drop(core);
    played?;
    compare_records(alloc, round)
}
