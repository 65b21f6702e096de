// How touched jobs stood at first, and whether what is stored of them is as it was.
ghost use Rattle.std.specs.Prelude.{◌≡◌, ◌↔◌, IsTrue, IfOk, OnOk};
ghost use Rattle.wm_rows.specs.Stored.{stored_phase};
ghost use Rattle.wm_jobs.specs.Marked.{standing_of};
ghost use Rattle.wm_tables.specs.Noted.{stored_standing, IsStoredAs, with_noted, noted};

use crate::standing::StoredStanding;
use std::alloc::Global;
use wm_base::{NoMemory, QName, Serial};
use wm_jobs::{Standing, Touched};
use wm_law::{Job, Phase};
use wm_ordered::Ordered;
use wm_rows::stored_phase;

fn same_phase(a: &Phase, b: &Phase) -> bool
    ensures { IsTrue result ↔ (stored_phase a.now ≡ stored_phase b.now) }
{
    stored_phase(a) == stored_phase(b)
}

fn same_queue(a: &Option<QName>, b: &Option<QName>) -> bool
    ensures { IsTrue result ↔ (a.now ≡ b.now) }
{
    a == b
}

fn stored_before(was: &Standing) -> StoredStanding
    ensures { result ≡ stored_standing was.now }
{
    StoredStanding {
        held: was.held,
        due: was.due,
        pty: was.pty,
        place: was.place,
    }
}

fn stored_now(job: &Job) -> StoredStanding
    ensures { result ≡ stored_standing (standing_of job.now) }
{
    StoredStanding {
        held: job.held,
        due: job.due,
        pty: job.pty,
        place: job.place,
    }
}

fn same_standing(was: &Standing, job: &Job) -> bool
    ensures { IsTrue result ↔ (stored_standing was.now ≡ stored_standing (standing_of job.now)) }
{
    stored_before(was) == stored_now(job)
}

/// Whether a job has stored what was stored of it where it stood so.
#[tactic(auto, using(crate::proofs::Standings::stored_same, crate::proofs::Standings::same_phases, crate::proofs::Standings::same_queues, crate::proofs::Standings::same_rest))]
pub(crate) fn is_stored_as(was: &Standing, job: &Job) -> bool
    ensures { IsTrue result ↔ IsStoredAs was.now job.now }
{
    same_phase(&was.phase, &job.phase)
        && same_queue(&was.jobq, &job.jobq)
        && same_standing(was, job)
}

fn note(noted: &mut Ordered<Serial, Standing>, touched: &Touched) -> Result<(), NoMemory>
    ensures { OnOk result (noted.new.items ≡ with_noted noted.old.items touched.now) }
{
    if !noted.contains(&touched.serial) {
        noted.reserve(1)?;
        noted.insert(touched.serial, touched.was);
    }
    Ok(())
}

/// How each touched job stood at first, by its serial. An `Err` is want of memory.
pub(crate) fn noted(
    alloc: Global,
    touched: &[Touched],
) -> Result<Ordered<Serial, Standing>, NoMemory>
    ensures { IfOk result (λ all. all.items ≡ noted touched.now) }
{
    let mut all = Ordered::new(alloc);
    for one in touched {
        note(&mut all, one)?;
    }
    Ok(all)
}
