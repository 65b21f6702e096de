// What values say.
ghost use Rattle.std.specs.Prelude.{◌≡◌, IsTrue, IfSome, codes};
ghost use Rattle.wm_law.specs.Ranges.{IsCause};
ghost use Rattle.wm_rows.specs.Stored.{IsPhase};
ghost use Rattle.wm_rows.specs.Reading.{within, push_digit, number_of, kept, same, qname_with, some_queue, jobq_of, kind_of, exited, route_full, plain_cause, cause_by, cause_of, phase_by, ended_of, phase_of};

use crate::pieces::{before, behind};
use crate::stored_job::StoredPhase;
use wm_base::{EndCause, JobNumber, Moment, Name, Priority, QName, StartCause, name_of};
use wm_law::JobKind;

/// The causes that have no value.
pub const PLAIN: [EndCause; 14] = [
    EndCause::Completed,
    EndCause::Killed,
    EndCause::Endjob,
    EndCause::Endsbs,
    EndCause::Endpj,
    EndCause::Maxuse,
    EndCause::NoRoute,
    EndCause::BadRequest,
    EndCause::NoProgram,
    EndCause::StartFailed(StartCause::Spawner),
    EndCause::StartFailed(StartCause::Memory),
    EndCause::Cleared,
    EndCause::EndedOnQueue,
    EndCause::Restarted,
];

fn push_digit(n: Option<u64>, byte: u8) -> Option<u64>
    ensures { result ≡ push_digit n byte }
{
    let n = n?;
    if !byte.is_ascii_digit() {
        return None;
    }
    let longer = u128::from(n) * 10 + u128::from(byte - b'0');
    if longer < 18_446_744_073_709_551_616 {
        Some(longer as u64)
    } else {
        None
    }
}

/// The number that digits write, where it has no more than 64 bits.
#[tactic(auto, unfolding(crate::specs::Reading::number_of))]
pub fn number_of(text: &[u8]) -> Option<u64>
    ensures { result ≡ number_of text.now }
{
    text.iter().fold(Some(0), |n, byte| push_digit(n, *byte))
}

fn kept(low: u64, high: u64, n: Option<u64>) -> Option<u64>
    ensures value { result ≡ kept low high n }
    ensures range { IfSome result (λ n. IsTrue (within low high n)) }
{
    let n = n?;
    if low <= n && n <= high { Some(n) } else { None }
}

pub fn job_number_of(text: &[u8]) -> Option<JobNumber>
    ensures { result ≡ kept 1 999999 (number_of text.now) }
{
    let n = kept(1, 999_999, number_of(text))?;
    Some(JobNumber::new(n as u32))
}

pub fn priority_of(text: &[u8]) -> Option<Priority>
    ensures { result ≡ kept 1 9 (number_of text.now) }
{
    let n = kept(1, 9, number_of(text))?;
    Some(Priority::new(n as u8))
}

pub fn moment_of(text: &[u8]) -> Option<Moment>
    ensures { result ≡ kept 0 253402214399 (number_of text.now) }
{
    let n = kept(0, 253_402_214_399, number_of(text))?;
    Some(Moment::new(n))
}

pub fn same(text: &[u8], word: &[u8]) -> bool
    ensures { result ≡ same text.now word.now }
{
    text == word
}

fn qname_with(lib: Option<Name>, name: Option<Name>) -> Option<QName>
    ensures { result ≡ qname_with lib name }
{
    let lib = lib?;
    let name = name?;
    Some(QName { lib, name })
}

fn some_queue(queue: Option<QName>) -> Option<Option<QName>>
    ensures { result ≡ some_queue queue }
{
    let queue = queue?;
    Some(Some(queue))
}

/// The queue, or that there is none.
pub fn jobq_of(text: &[u8]) -> Option<Option<QName>>
    ensures { result ≡ jobq_of text.now }
{
    if same(text, b"*NONE") {
        Some(None)
    } else {
        some_queue(qname_with(name_of(before(b'/', text)), name_of(behind(b'/', text))))
    }
}

/// The kind: any other text is taken for PJ.
pub fn kind_of(text: &[u8]) -> JobKind
    ensures { result ≡ kind_of text.now }
{
    if same(text, b"BCH") {
        JobKind::Bch
    } else if same(text, b"ASJ") {
        JobKind::Asj
    } else {
        JobKind::Pj
    }
}

fn exited(code: Option<u64>) -> Option<EndCause>
    ensures value { result ≡ exited (kept 0 255 code) }
    ensures range { IfSome result IsCause }
{
    let code = kept(0, 255, code)?;
    Some(EndCause::Exited(code as u8))
}

fn route_full(seq: Option<u64>) -> Option<EndCause>
    ensures value { result ≡ route_full (kept 1 9999 seq) }
    ensures range { IfSome result IsCause }
{
    let seq = kept(1, 9999, seq)?;
    Some(EndCause::RouteFull(seq as u32))
}

#[tactic(auto, using(crate::proofs::Ranges::plain_in_range))]
fn plain_cause(number: u64) -> Option<EndCause>
    ensures value { result ≡ plain_cause number }
    ensures range { IfSome result IsCause }
{
    PLAIN
        .iter()
        .copied()
        .find(|cause| u64::from(cause.number()) == number)
}

fn cause_by(number: u64, value: Option<u64>) -> Option<EndCause>
    ensures value { result ≡ cause_by number value }
    ensures range { IfSome result IsCause }
{
    if number == 2 {
        exited(value)
    } else if number == 9 {
        route_full(value)
    } else {
        plain_cause(number)
    }
}

fn cause_of(number: Option<u64>, value: Option<u64>) -> Option<EndCause>
    ensures value { result ≡ cause_of number value }
    ensures range { IfSome result IsCause }
{
    cause_by(number?, value)
}

fn phase_by(cause: Option<EndCause>) -> Option<StoredPhase>
    requires { IfSome cause IsCause }
    ensures value { result ≡ phase_by cause }
    ensures range { IfSome result IsPhase }
{
    let cause = cause?;
    Some(StoredPhase::Ended(cause))
}

fn ended_of(text: &[u8]) -> Option<StoredPhase>
    ensures value { result ≡ ended_of text.now }
    ensures range { IfSome result IsPhase }
{
    let number = number_of(before(b' ', text));
    let value = number_of(behind(b' ', text));
    phase_by(cause_of(number, value))
}

/// The phase. What has a blank is taken for ENDED with the cause behind it.
pub fn phase_of(text: &[u8]) -> Option<StoredPhase>
    ensures value { result ≡ phase_of text.now }
    ensures range { IfSome result IsPhase }
{
    if same(text, b"WAITING") {
        Some(StoredPhase::Waiting)
    } else if same(text, b"ACTIVE") {
        Some(StoredPhase::Active)
    } else {
        ended_of(behind(b' ', text))
    }
}
