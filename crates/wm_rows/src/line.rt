// Reading the text of a stored job.
ghost use Rattle.std.specs.Prelude.{◌≡◌, ◌≤◌, ◌<◌, IfOk, IfSome, length};
ghost use Rattle.wm_rows.specs.Stored.{IsPhase};
ghost use Rattle.wm_rows.specs.Reading.{names_with, names_of, queueing_with, queueing_of, state_with, state_of, behind_four};
ghost use Rattle.wm_rows.specs.Scan.{request_by, request_of, whole, text_tail, text_data, read_text};

use crate::pieces::{behind, behind_four, rest, value, without};
use crate::scan::{Quoted, quoted_of};
use crate::stored_job::{StoredJob, StoredPhase};
use crate::values::{
    job_number_of, jobq_of, kind_of, moment_of, number_of, phase_of, priority_of, same,
};
use std::alloc::Global;
use wm_base::{JobNumber, Moment, Name, NoMemory, Priority, QName, Text, name_of};
use wm_law::JobKind;

/// How a job is named.
#[derive(Clone, Copy)]
pub struct Names {
    pub serial: u64,
    pub number: JobNumber,
    pub user: Name,
    pub name: Name,
}

/// Its kind, and where it stands on which queue.
#[derive(Clone, Copy)]
pub struct Queueing {
    pub kind: JobKind,
    pub jobq: Option<QName>,
    pub pty: Priority,
    pub place: u64,
}

/// How it stands.
#[derive(Clone, Copy)]
pub struct Standing {
    pub held: bool,
    pub due: Moment,
    pub phase: StoredPhase,
}

/// A request, or none, and how many bytes it has with its apostrophes.
#[derive(Drop)]
pub struct Requested {
    pub text: Option<Text>,
    pub len: usize,
}

fn names_with(
    serial: Option<u64>,
    number: Option<JobNumber>,
    user: Option<Name>,
    name: Option<Name>,
) -> Option<Names>
    ensures { result ≡ names_with serial number user name }
{
    Some(Names {
        serial: serial?,
        number: number?,
        user: user?,
        name: name?,
    })
}

#[tactic(auto, unfolding(crate::specs::Reading::names_of))]
fn names_of(text: &[u8]) -> Option<Names>
    ensures { result ≡ names_of text.now }
{
    let second = rest(text);
    let third = rest(second);
    let fourth = rest(third);
    names_with(
        number_of(value(text)),
        job_number_of(value(second)),
        name_of(value(third)),
        name_of(value(fourth)),
    )
}

fn queueing_with(
    kind: JobKind,
    jobq: Option<Option<QName>>,
    pty: Option<Priority>,
    place: Option<u64>,
) -> Option<Queueing>
    ensures { result ≡ queueing_with kind jobq pty place }
{
    Some(Queueing {
        kind,
        jobq: jobq?,
        pty: pty?,
        place: place?,
    })
}

#[tactic(auto, unfolding(crate::specs::Reading::queueing_of))]
fn queueing_of(text: &[u8]) -> Option<Queueing>
    ensures { result ≡ queueing_of text.now }
{
    let second = rest(text);
    let third = rest(second);
    let fourth = rest(third);
    queueing_with(
        kind_of(value(text)),
        jobq_of(value(second)),
        priority_of(value(third)),
        number_of(value(fourth)),
    )
}

fn state_with(held: bool, due: Option<Moment>, phase: Option<StoredPhase>) -> Option<Standing>
    requires { IfSome phase IsPhase }
    ensures value { result ≡ state_with held due phase }
    ensures range { IfSome result (λ s. IsPhase s.phase) }
{
    Some(Standing {
        held,
        due: due?,
        phase: phase?,
    })
}

#[tactic(auto, unfolding(crate::specs::Reading::state_of))]
fn state_of(text: &[u8]) -> Option<Standing>
    ensures value { result ≡ state_of text.now }
    ensures range { IfSome result (λ s. IsPhase s.phase) }
{
    let second = rest(text);
    let third = rest(second);
    state_with(
        same(value(text), b"*YES"),
        moment_of(value(second)),
        phase_of(value(third)),
    )
}

fn request_by(quoted: Option<Quoted>) -> Option<Requested>
    requires { IfSome quoted (λ q. q.len < usize.MAX) }
    ensures { result ≡ request_by quoted }
{
    let quoted = quoted?;
    Some(Requested {
        text: Some(quoted.text),
        len: quoted.len + 1,
    })
}

// What begins with an apostrophe is a request, anything else none.
fn request_of(alloc: Global, text: &[u8]) -> Result<Option<Requested>, NoMemory>
    ensures value { IfOk result (λ o. o ≡ request_of text.now) }
    ensures short { IfOk result (λ o. IfSome o (λ r. r.len ≤ length text.now)) }
{
    match text {
        [b'\'', inside @ ..] => {
            let quoted = quoted_of(alloc, inside)?;
            Ok(request_by(quoted))
        }
        _ => Ok(Some(Requested { text: None, len: 0 })),
    }
}

fn whole(
    names: Option<Names>,
    queueing: Option<Queueing>,
    state: Option<Standing>,
    rtgdta: Text,
    rqsdta: Option<Text>,
) -> Option<StoredJob>
    requires { IfSome state (λ s. IsPhase s.phase) }
    ensures value { result ≡ whole names queueing state rtgdta rqsdta }
    ensures range { IfSome result (λ job. IsPhase job.phase) }
{
    let names = names?;
    let queueing = queueing?;
    let state = state?;
    Some(StoredJob {
        serial: names.serial,
        number: names.number,
        user: names.user,
        name: names.name,
        kind: queueing.kind,
        jobq: queueing.jobq,
        pty: queueing.pty,
        place: queueing.place,
        rtgdta,
        rqsdta,
        held: state.held,
        due: state.due,
        phase: state.phase,
    })
}

// The job of a text that has this request, where the request stands first in the tail.
fn text_tail(
    text: &[u8],
    rtgdta: Text,
    request: Option<Requested>,
    tail: &[u8],
) -> Option<StoredJob>
    requires { IfSome request (λ r. r.len ≤ length tail.now) }
    ensures value { result ≡ text_tail text.now rtgdta request tail.now }
    ensures range { IfSome result (λ job. IsPhase job.phase) }
{
    let request = request?;
    let state = state_of(without(request.len, tail));
    let names = names_of(text);
    let queueing = queueing_of(behind_four(text));
    whole(names, queueing, state, rtgdta, request.text)
}

// The same, with this routing data, which stands first in what is inside.
fn text_data(
    alloc: Global,
    text: &[u8],
    quoted: Option<Quoted>,
    inside: &[u8],
) -> Result<Option<StoredJob>, NoMemory>
    requires { IfSome quoted (λ q. q.len ≤ length inside.now) }
    ensures value { IfOk result (λ o. o ≡ text_data text.now quoted inside.now) }
    ensures range { IfOk result (λ o. IfSome o (λ job. IsPhase job.phase)) }
{
    let Some(quoted) = quoted else {
        return Ok(None);
    };
    let tail = behind(b'(', without(quoted.len, inside));
    let request = request_of(alloc, tail)?;
    Ok(text_tail(text, quoted.text, request, tail))
}

/// The stored job whose text this would be, by where its values stand.
#[tactic(auto, unfolding(crate::specs::Scan::read_text))]
pub fn read_text(alloc: Global, text: &[u8]) -> Result<Option<StoredJob>, NoMemory>
    ensures value { IfOk result (λ o. o ≡ read_text text.now) }
    ensures range { IfOk result (λ o. IfSome o (λ job. IsPhase job.phase)) }
{
    let inside = behind(b'\'', behind_four(behind_four(text)));
    let quoted = quoted_of(alloc, inside)?;
    let job = text_data(alloc, text, quoted, inside)?;
    Ok(job)
}
