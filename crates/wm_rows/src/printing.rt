// The text of a stored job.
ghost use Rattle.std.specs.Prelude.{◌≡◌, ◌++◌, OnOk, IfOk, codes};
ghost use Rattle.std.specs.Fmt.{decimal};
ghost use Rattle.wm_base.specs.Text.{IsText};
ghost use Rattle.wm_clwords.specs.Quote.{quoted};
ghost use Rattle.wm_rows.specs.JobText.{field, kind_word, held_word, jobq_text, request_text, value_text, cause_text, phase_text, name_fields, queue_fields, data_fields, state_fields, job_text};

use crate::stored_job::{StoredJob, StoredPhase};
use std::alloc::Global;
use wm_base::{EndCause, Name, NoMemory, QName, Text};
use wm_clwords::{push_qname, push_quoted};
use wm_law::JobKind;

// A blank, the key and its parenthesis.
fn push_key(out: &mut Text, key: &[u8]) -> Result<(), NoMemory>
    requires { IsText key.now }
    ensures { OnOk result (out.new ≡ out.old ++ codes " " ++ key.now ++ codes "(") }
{
    out.push_bytes(b" ")?;
    out.push_bytes(key)?;
    out.push_bytes(b"(")?;
    Ok(())
}

#[tactic(auto, using(wm_clwords::proofs::Names::texts))]
fn push_decimal(alloc: Global, out: &mut Text, n: u64) -> Result<(), NoMemory>
    ensures { OnOk result (out.new ≡ out.old ++ decimal n) }
{
    let digits = format!(in alloc; "{n}")?;
    out.push_bytes(digits.as_bytes())?;
    Ok(())
}

fn push_number(alloc: Global, out: &mut Text, key: &[u8], n: u64) -> Result<(), NoMemory>
    requires { IsText key.now }
    ensures { OnOk result (out.new ≡ out.old ++ field key.now (decimal n)) }
{
    push_key(out, key)?;
    push_decimal(alloc, out, n)?;
    out.push_bytes(b")")?;
    Ok(())
}

fn push_word(out: &mut Text, key: &[u8], word: &[u8]) -> Result<(), NoMemory>
    requires key { IsText key.now }
    requires word { IsText word.now }
    ensures { OnOk result (out.new ≡ out.old ++ field key.now word.now) }
{
    push_key(out, key)?;
    out.push_bytes(word)?;
    out.push_bytes(b")")?;
    Ok(())
}

#[tactic(auto, using(wm_clwords::proofs::Names::texts))]
fn push_name(out: &mut Text, key: &[u8], name: &Name) -> Result<(), NoMemory>
    requires { IsText key.now }
    ensures { OnOk result (out.new ≡ out.old ++ field key.now name.now) }
{
    push_word(out, key, name.as_bytes())?;
    Ok(())
}

fn push_text(out: &mut Text, key: &[u8], text: &Text) -> Result<(), NoMemory>
    requires { IsText key.now }
    ensures { OnOk result (out.new ≡ out.old ++ field key.now (quoted text.now)) }
{
    push_key(out, key)?;
    push_quoted(out, text)?;
    out.push_bytes(b")")?;
    Ok(())
}

fn push_jobq(out: &mut Text, jobq: &Option<QName>) -> Result<(), NoMemory>
    ensures { OnOk result (out.new ≡ out.old ++ field (codes "JOBQ") (jobq_text jobq.now)) }
{
    push_key(out, b"JOBQ")?;
    match jobq {
        None => out.push_bytes(b"*NONE")?,
        Some(name) => push_qname(out, name)?,
    }
    out.push_bytes(b")")?;
    Ok(())
}

fn push_request(out: &mut Text, request: &Option<Text>) -> Result<(), NoMemory>
    ensures { OnOk result (out.new ≡ out.old ++ field (codes "RQSDTA") (request_text request.now)) }
{
    match request {
        None => push_word(out, b"RQSDTA", b"*NONE")?,
        Some(text) => push_text(out, b"RQSDTA", text)?,
    }
    Ok(())
}

fn kind_word(kind: JobKind) -> &'static [u8]
    ensures value { result.now ≡ kind_word kind }
    ensures text { IsText result.now }
{
    match kind {
        JobKind::Bch => b"BCH",
        JobKind::Asj => b"ASJ",
        JobKind::Pj => b"PJ",
    }
}

fn held_word(held: bool) -> &'static [u8]
    ensures value { result.now ≡ held_word held }
    ensures text { IsText result.now }
{
    if held { b"*YES" } else { b"*NO" }
}

fn push_value(alloc: Global, out: &mut Text, n: u64) -> Result<(), NoMemory>
    ensures { OnOk result (out.new ≡ out.old ++ (codes " " ++ decimal n)) }
{
    out.push_bytes(b" ")?;
    push_decimal(alloc, out, n)?;
    Ok(())
}

// A cause by its number, with the value of the two causes that have one.
fn push_cause(alloc: Global, out: &mut Text, cause: &EndCause) -> Result<(), NoMemory>
    ensures { OnOk result (out.new ≡ out.old ++ cause_text cause.now) }
{
    push_decimal(alloc, out, u64::from(cause.number()))?;
    match cause {
        EndCause::Exited(code) => push_value(alloc, out, u64::from(*code))?,
        EndCause::RouteFull(seq) => push_value(alloc, out, u64::from(*seq))?,
        _ => {}
    }
    Ok(())
}

fn push_phase(alloc: Global, out: &mut Text, phase: &StoredPhase) -> Result<(), NoMemory>
    ensures { OnOk result (out.new ≡ out.old ++ field (codes "PHASE") (phase_text phase.now)) }
{
    push_key(out, b"PHASE")?;
    match phase {
        StoredPhase::Waiting => out.push_bytes(b"WAITING")?,
        StoredPhase::Active => out.push_bytes(b"ACTIVE")?,
        StoredPhase::Ended(cause) => {
            out.push_bytes(b"ENDED ")?;
            push_cause(alloc, out, cause)?;
        }
    }
    out.push_bytes(b")")?;
    Ok(())
}

// How the job is named.
fn push_names(alloc: Global, out: &mut Text, job: &StoredJob) -> Result<(), NoMemory>
    ensures { OnOk result (out.new ≡ out.old ++ name_fields job.now) }
{
    push_number(alloc, out, b"SERIAL", job.serial)?;
    push_number(alloc, out, b"NUMBER", u64::from(job.number.get()))?;
    push_name(out, b"USER", &job.user)?;
    push_name(out, b"NAME", &job.name)?;
    Ok(())
}

// Its kind, and where it stands on which queue.
fn push_queueing(alloc: Global, out: &mut Text, job: &StoredJob) -> Result<(), NoMemory>
    ensures { OnOk result (out.new ≡ out.old ++ queue_fields job.now) }
{
    push_word(out, b"TYPE", kind_word(job.kind))?;
    push_jobq(out, &job.jobq)?;
    push_number(alloc, out, b"JOBPTY", u64::from(job.pty.get()))?;
    push_number(alloc, out, b"PLACE", job.place)?;
    Ok(())
}

// What it is to do.
fn push_data(out: &mut Text, job: &StoredJob) -> Result<(), NoMemory>
    ensures { OnOk result (out.new ≡ out.old ++ data_fields job.now) }
{
    push_text(out, b"RTGDTA", &job.rtgdta)?;
    push_request(out, &job.rqsdta)?;
    Ok(())
}

// How it stands.
fn push_state(alloc: Global, out: &mut Text, job: &StoredJob) -> Result<(), NoMemory>
    ensures { OnOk result (out.new ≡ out.old ++ state_fields job.now) }
{
    push_word(out, b"HOLD", held_word(job.held))?;
    push_number(alloc, out, b"DUE", job.due.get())?;
    push_phase(alloc, out, &job.phase)?;
    Ok(())
}

/// The text of a stored job.
#[tactic(auto, unfolding(crate::specs::JobText::job_text))]
pub fn job_text(alloc: Global, job: &StoredJob) -> Result<Text, NoMemory>
    ensures { IfOk result (λ text. text ≡ job_text job.now) }
{
    let mut text = Text::new(alloc);
    text.push_bytes(b"JOB")?;
    push_names(alloc, &mut text, job)?;
    push_queueing(alloc, &mut text, job)?;
    push_data(&mut text, job)?;
    push_state(alloc, &mut text, job)?;
    Ok(text)
}
