// Autostart jobs: made and launched as their subsystem starts.
ghost use Rattle.std.specs.Prelude.{◌≡◌, ◌+◌, ◌++◌, ◌^◌, ◌<◌, ◌≤◌, length, option_to_list, IfOk, OnOk};
ghost use Rattle.wm_law.specs.Launch.{as_auto, routed_in};
ghost use Rattle.wm_law.specs.Submitting.{numbers_end};
ghost use Rattle.wm_jobs.specs.Table.{IsReady};
ghost use Rattle.wm_core.specs.Drafts.{draft_of, draft_in, drafts, drafted_job, enter_draft, site_state, enter_drafts};

use crate::draft::{Draft, Site};
use crate::submitting::read_request;
use std::alloc::Global;
use wm_base::{How, JobName, JobNumber, Name, NoMemory, Priority, Serial};
use wm_desc::{AutoEntry, Jobd, Table};
use wm_jobs::JobTable;
use wm_law::{Job, JobKind, Launched, Phase, Wish};
use wm_pick::Parts;

// What an entry's job has of its job description.
fn draft_of(alloc: Global, entry: &AutoEntry, jobd: &Jobd) -> Result<Draft, NoMemory>
    ensures { IfOk result (λ draft. draft ≡ draft_of entry.now jobd.now) }
{
    let rtgdta = jobd.rtgdta.clone()?;
    let rqsdta = read_request(alloc, &jobd.rqsdta)?;
    Ok(Draft {
        name: entry.job,
        rtgdta,
        rqsdta,
    })
}

// Adds the draft of an entry's job, where its job description is an object.
fn add_draft(
    alloc: Global,
    drafts: &mut Vec<Draft>,
    jobds: &Table<Jobd>,
    entry: &AutoEntry,
) -> Result<(), NoMemory>
    ensures { OnOk result (drafts.new.items ≡ drafts.old.items ++ option_to_list (draft_in jobds.now entry.now)) }
{
    if let Some(jobd) = jobds.object(&entry.jobd) {
        drafts.push(draft_of(alloc, entry, jobd)?)?;
    }
    Ok(())
}

/// What the jobs of the entries want memory for.
pub(crate) fn drafts(
    alloc: Global,
    jobds: &Table<Jobd>,
    entries: &[AutoEntry],
) -> Result<Vec<Draft>, NoMemory>
    ensures { IfOk result (λ made. made.items ≡ drafts jobds.now entries.now) }
{
    let mut drafts = Vec::new(alloc);
    for entry in entries {
        add_draft(alloc, &mut drafts, jobds, entry)?;
    }
    Ok(drafts)
}

// The job of a draft, as its launch takes it: with the next number and serial, and due at the clock.
fn drafted_job(table: &JobTable, number: u32, site: &Site<'_>, draft: Draft) -> Job
    requires least { 1 ≤ number }
    requires greatest { number < numbers_end }
    ensures { result ≡ drafted_job (site_state site.now table.now number) draft }
{
    Job {
        serial: Serial::new(table.next_serial()),
        job: JobName {
            number: JobNumber::new(number),
            user: Name::of(b"QUSER"),
            name: draft.name,
        },
        kind: JobKind::Asj,
        jobq: None,
        pty: Priority::new(5),
        place: 0,
        rtgdta: draft.rtgdta,
        rqsdta: draft.rqsdta,
        held: false,
        due: table.clock(),
        phase: Phase::Waiting,
        how: How::NotYet,
        wish: Wish::NoWish,
        uses: 0,
        evoke: false,
    }
}

// What its launch makes of it.
fn launched(table: &JobTable, number: u32, site: &Site<'_>, job: &Job) -> Launched
    ensures { result ≡ routed_in (site_state site.now table.now number) site.now.sbs (as_auto site.now.sbs) job.now }
{
    let parts = Parts::new(
        site.objects,
        table.jobs(),
        site.started,
        site.held,
        table.waiting(),
        table.tally(),
        table.clock(),
    );
    parts.launched_auto(&site.sbs, job)
}

// The job of a draft is launched as it is made, and its number and serial are taken.
fn enter_draft(table: &mut JobTable, number: &mut u32, site: &Site<'_>, draft: Draft)
    requires room { 1 ≤ table.old.spare }
    requires serial_fits { table.old.next_serial + 1 < 2 ^ 64 }
    requires least { 1 ≤ number.old }
    requires greatest { number.old < numbers_end }
    ensures state { site_state site.now table.new number.new ≡ enter_draft site.now.sbs (site_state site.now table.old number.old) draft }
    ensures clock { table.new.clock ≡ table.old.clock }
    ensures next_serial { table.new.next_serial ≡ table.old.next_serial + 1 }
    ensures next_place { table.new.next_place ≡ table.old.next_place }
    ensures number { number.new ≡ number.old + 1 }
    ensures spare { table.old.spare ≡ table.new.spare + 1 }
    ensures ready { IsReady table.old → IsReady table.new }
    ensures marked { table.new.marked ≡ table.old.marked }
{
    let mut job = drafted_job(table, *number, site, draft);
    let launched = launched(table, *number, site, &job);
    job.phase = launched.phase;
    job.how = launched.how;
    table.push_launched(job);
    *number += 1;
}

/// The job of each draft is launched as it is made. It takes no memory.
pub(crate) fn enter_drafts(
    table: &mut JobTable,
    number: &mut u32,
    site: &Site<'_>,
    drafts: Vec<Draft>,
)
    requires room { length drafts.items ≤ table.old.spare }
    requires serials { 1 ≤ length drafts.items → table.old.next_serial + length drafts.items < 2 ^ 64 }
    requires least { 1 ≤ length drafts.items → 1 ≤ number.old }
    requires greatest { 1 ≤ length drafts.items → number.old + length drafts.items ≤ numbers_end }
    ensures state { site_state site.now table.new number.new ≡ enter_drafts site.now table.old number.old drafts.items }
    ensures clock { table.new.clock ≡ table.old.clock }
    ensures next_place { table.new.next_place ≡ table.old.next_place }
    ensures ready { IsReady table.old → IsReady table.new }
    ensures marked { table.new.marked ≡ table.old.marked }
{
    for draft in drafts {
        enter_draft(table, number, site, draft);
    }
}
