// A stored job, and the job that it is in a new run.
ghost use Rattle.std.specs.Prelude.{◌≡◌, ◌↔◌, IfOk, IsTrue, None, codes};
ghost use Rattle.wm_desc.specs.Ranges.{request_in_range};
ghost use Rattle.wm_law.specs.declared.job.JobKind.TheVariants.{Bch};
ghost use Rattle.wm_rows.specs.declared.stored_job.StoredPhase.TheVariants.{Waiting};
ghost use Rattle.wm_rows.specs.Stored.{IsStored, IsPhase, IsQueue, IsRequest};
ghost use Rattle.wm_tables.specs.Restart.{phase_of, job_of, HasOwnValues, IsOfKind, HasLengths};
ghost use Rattle.wm_restart.specs.Plausible.{IsPlausible};

use std::alloc::Global;
use wm_base::{EndCause, How, JobName, NoMemory, QName, Serial, Text};
use wm_clwords::Request;
use wm_desc::Objects;
use wm_law::{Job, JobKind, Phase, Wish};
use wm_rows::{StoredJob, StoredPhase};

fn phase_of(phase: StoredPhase) -> Phase
    ensures { result ≡ phase_of phase }
{
    match phase {
        StoredPhase::Waiting => Phase::Waiting,
        StoredPhase::Active => Phase::Ended(EndCause::Restarted),
        StoredPhase::Ended(cause) => Phase::Ended(cause),
    }
}

fn request_of(alloc: Global, text: Option<Text>) -> Result<Option<Request>, NoMemory>
    ensures { IfOk result (λ request. request ≡ text) }
{
    match text {
        None => Ok(None),
        Some(text) => {
            let request = Request::read(alloc, text)?;
            Ok(Some(request))
        }
    }
}

/// The job of what was stored of it; one that was active has ended.
pub(crate) fn job_of(alloc: Global, stored: StoredJob) -> Result<Job, NoMemory>
    ensures { IfOk result (λ job. job ≡ job_of stored) }
{
    let rqsdta = request_of(alloc, stored.rqsdta)?;
    Ok(Job {
        serial: Serial::new(stored.serial),
        job: JobName {
            number: stored.number,
            user: stored.user,
            name: stored.name,
        },
        kind: stored.kind,
        jobq: stored.jobq,
        pty: stored.pty,
        place: stored.place,
        rtgdta: stored.rtgdta,
        rqsdta,
        held: stored.held,
        due: stored.due,
        phase: phase_of(stored.phase),
        how: How::NotYet,
        wish: Wish::NoWish,
        uses: 0,
        evoke: false,
    })
}

// Whether a job has no queue, priority 5, place 0, and isn't held.
fn has_own_values(job: &StoredJob) -> bool
    ensures { IsTrue result ↔ HasOwnValues job.now }
{
    job.jobq.is_none() && job.pty.get() == 5 && job.place == 0 && !job.held
}

// Whether a job has a queue that is an object.
fn has_queue(objects: &Objects, job: &StoredJob) -> bool
    ensures { IsTrue result ↔ IsOfKind objects.now Bch job.now }
{
    match &job.jobq {
        None => false,
        Some(queue) => objects.jobqs.object(queue).is_some(),
    }
}

// Whether a job has one blank as routing data and no request.
fn is_empty(job: &StoredJob) -> bool
    ensures { IsTrue result ↔ ((job.now.rtgdta ≡ codes " ") × (job.now.rqsdta ≡ None)) }
{
    job.rtgdta.as_bytes() == b" ".as_slice() && job.rqsdta.is_none()
}

// Whether a job has the values of its kind.
fn is_of_kind(objects: &Objects, job: &StoredJob) -> bool
    ensures { IsTrue result ↔ IsOfKind objects.now job.now.kind job.now }
{
    match job.kind {
        JobKind::Bch => has_queue(objects, job),
        JobKind::Asj => has_own_values(job),
        JobKind::Pj => has_own_values(job) && is_empty(job),
    }
}

// Whether a request has at most 1,000 characters, where there is one.
fn request_in_range(request: &Option<Text>) -> bool
    ensures { result ≡ request_in_range request.now }
{
    match request {
        None => true,
        Some(text) => text.len() <= 1000,
    }
}

// Whether routing data and request have their lengths.
fn has_lengths(job: &StoredJob) -> bool
    ensures { IsTrue result ↔ HasLengths job.now }
{
    let length = job.rtgdta.len();
    1 <= length && length <= 80 && request_in_range(&job.rqsdta)
}

fn queue_keeps_ranges(queue: &Option<QName>)
    ensures { IsQueue queue.now }
{
    if let Some(queue) = queue {
        queue.lib.as_bytes();
        queue.name.as_bytes();
    }
}

fn request_keeps_ranges(request: &Option<Text>)
    ensures { IsRequest request.now }
{
    if let Some(request) = request {
        request.as_bytes();
    }
}

/// Tells that a job keeps the ranges of its values' types.
pub(crate) fn keeps_ranges(job: &StoredJob)
    requires { IsPhase job.now.phase }
    ensures { IsStored job.now }
{
    // What a field of a number's own type has is known once it is read.
    let _serial = job.serial;
    let _place = job.place;
    job.number.get();
    job.user.as_bytes();
    job.name.as_bytes();
    queue_keeps_ranges(&job.jobq);
    job.pty.get();
    job.rtgdta.as_bytes();
    request_keeps_ranges(&job.rqsdta);
    job.due.get();
}

/// Whether a job waits.
pub(crate) fn waits(phase: StoredPhase) -> bool
    ensures { IsTrue result ↔ (phase ≡ Waiting) }
{
    matches!(phase, StoredPhase::Waiting)
}

fn is_submitted(kind: JobKind) -> bool
    ensures { IsTrue result ↔ (kind ≡ Bch) }
{
    matches!(kind, JobKind::Bch)
}

/// Whether a job has its lengths and the values of its kind, and waits only where it was submitted.
pub(crate) fn is_plausible(objects: &Objects, job: &StoredJob) -> bool
    ensures { IsTrue result ↔ IsPlausible objects.now job.now }
{
    has_lengths(job) && is_of_kind(objects, job) && (is_submitted(job.kind) || !waits(job.phase))
}
