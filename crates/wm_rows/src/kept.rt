// What of a job is stored.
ghost use Rattle.std.specs.Prelude.{◌≡◌, IfOk};
ghost use Rattle.wm_rows.specs.Stored.{stored_phase, stored_of};

use crate::stored_job::{StoredJob, StoredPhase};
use wm_base::{NoMemory, Text};
use wm_clwords::Request;
use wm_law::{Job, Phase};

/// What is stored of a phase.
pub fn stored_phase(phase: &Phase) -> StoredPhase
    ensures { result ≡ stored_phase phase.now }
{
    match phase {
        Phase::Waiting => StoredPhase::Waiting,
        Phase::Starting => StoredPhase::Active,
        Phase::Handed(_) => StoredPhase::Active,
        Phase::Running(_) => StoredPhase::Active,
        Phase::Ended(cause) => StoredPhase::Ended(*cause),
    }
}

fn text_of(request: &Option<Request>) -> Result<Option<Text>, NoMemory>
    ensures { IfOk result (λ text. text ≡ request.now) }
{
    match request {
        None => Ok(None),
        Some(request) => Ok(Some(request.text().clone()?)),
    }
}

/// What is stored of a job.
pub fn stored_of(job: &Job) -> Result<StoredJob, NoMemory>
    ensures { IfOk result (λ stored. stored ≡ stored_of job.now) }
{
    let rtgdta = job.rtgdta.clone()?;
    let rqsdta = text_of(&job.rqsdta)?;
    Ok(StoredJob {
        serial: job.serial.get(),
        number: job.job.number,
        user: job.job.user,
        name: job.job.name,
        kind: job.kind,
        jobq: job.jobq,
        pty: job.pty,
        place: job.place,
        rtgdta,
        rqsdta,
        held: job.held,
        due: job.due,
        phase: stored_phase(&job.phase),
    })
}
