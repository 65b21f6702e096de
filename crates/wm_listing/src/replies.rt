// The texts of replies.
ghost use Rattle.std.specs.Prelude.{◌≡◌, ◌++◌, IfOk, OnOk, codes, string_bytes};
ghost use Rattle.wm_base.specs.JobName.{job_name_text};
ghost use Rattle.wm_base.specs.QName.{qname_text};
ghost use Rattle.wm_base.specs.Refusal.{refusal_text};
ghost use Rattle.std.specs.Fmt.{decimal};
ghost use Rattle.wm_listing.specs.Said.{behind_blank, made_text, mention_of, noted_text, order_text, prestart_text, queue_text, said_of, subject_of};

use crate::mention::{Mention, Subject};
use std::alloc::Global;
use std::fmt::Write;
use wm_base::{Asked, JobName, NoMemory, QName, Refusal};
use wm_command::{change_word, verb_of};
use wm_law::{Command, Reply};

// So many bytes hold most lines with their end.
const LINE: usize = 64;

// What is ordered, with the job's serial.
fn order_text(alloc: Global, asked: &Asked) -> Result<String, NoMemory>
    ensures { IfOk result (λ text. string_bytes text ≡ order_text asked.now) }
{
    match asked {
        Asked::Start(order) => {
            let serial = order.serial;
            format!(in alloc; "ORDER START {serial}")
        }
        Asked::Kill(serial) => format!(in alloc; "ORDER KILL {serial}"),
    }
}

// The beginning of a line, with room for the rest of most.
fn begun(alloc: Global, first: &str) -> Result<String, NoMemory>
    ensures { IfOk result (λ text. string_bytes text ≡ first.now) }
{
    let mut text = String::with_capacity(alloc, LINE)?;
    text.push_str(first)?;
    Ok(text)
}

// A job, and what became of it.
fn job_line(alloc: Global, job: &JobName, end: &str) -> Result<String, NoMemory>
    ensures { IfOk result (λ text. string_bytes text ≡ codes "OK " ++ job_name_text job.now ++ end.now) }
{
    let mut text = begun(alloc, "OK ")?;
    write!(text, "{job}")?;
    text.push_str(end)?;
    Ok(text)
}

// The job that was submitted, and its queue.
fn submitted(alloc: Global, job: &JobName, jobq: &QName) -> Result<String, NoMemory>
    ensures { IfOk result (λ text. string_bytes text ≡ codes "OK " ++ job_name_text job.now ++ codes " submitted to " ++ qname_text jobq.now) }
{
    let mut text = job_line(alloc, job, " submitted to ")?;
    write!(text, "{jobq}")?;
    Ok(text)
}

// Why nothing was done.
fn refused(alloc: Global, refusal: &Refusal) -> Result<String, NoMemory>
    ensures { IfOk result (λ text. string_bytes text ≡ codes "NO " ++ refusal_text refusal.now) }
{
    let mut text = begun(alloc, "NO ")?;
    write!(text, "{refusal}")?;
    Ok(text)
}

// What a command is about.
fn subject_of(command: &Command) -> Subject
    ensures { result ≡ subject_of command.now }
{
    match command {
        Command::Crtcls(c) => Subject::Object(c.cls),
        Command::Crtjobq(c) => Subject::Object(c.jobq),
        Command::Crtpgmref(c) => Subject::Object(c.pgm),
        Command::Crtjobd(c) => Subject::Object(c.jobd),
        Command::Crtsbsd(c) => Subject::Object(c.sbsd),
        Command::Addjobqe(c) => Subject::Object(c.sbsd),
        Command::Addrtge(c) => Subject::Object(c.sbsd),
        Command::Addaje(c) => Subject::Object(c.sbsd),
        Command::Addpje(c) => Subject::Object(c.sbsd),
        Command::Rmvjobqe(c) => Subject::Object(c.sbsd),
        Command::Rmvrtge(c) => Subject::Object(c.sbsd),
        Command::Rmvaje(c) => Subject::Object(c.sbsd),
        Command::Rmvpje(c) => Subject::Object(c.sbsd),
        Command::Hldjobq(c) => Subject::Object(c.jobq),
        Command::Rlsjobq(c) => Subject::Object(c.jobq),
        Command::Clrjobq(c) => Subject::Object(c.jobq),
        Command::Strpj(c) => Subject::PreEntry {
            pgm: c.pgm,
            sbs: c.sbs,
        },
        Command::Endpj(c) => Subject::PreEntry {
            pgm: c.pgm,
            sbs: c.sbs,
        },
        _ => Subject::Nothing,
    }
}

/// What the line of a reply mentions of its command.
pub fn mention_of(command: &Command) -> Mention
    ensures { result ≡ mention_of command.now }
{
    Mention {
        verb: verb_of(command),
        subject: subject_of(command),
    }
}

// Adds a blank and a name.
fn push_qname(text: &mut String, name: &QName) -> Result<(), NoMemory>
    ensures { OnOk result (string_bytes text.new ≡ string_bytes text.old ++ (codes " " ++ qname_text name.now)) }
{
    text.push_str(" ")?;
    write!(text, "{name}")?;
    Ok(())
}

// Adds a blank and what a command is about, where it is about something.
fn push_subject(text: &mut String, subject: &Subject) -> Result<(), NoMemory>
    ensures { OnOk result (string_bytes text.new ≡ string_bytes text.old ++ behind_blank subject.now) }
{
    match subject {
        Subject::Nothing => {}
        Subject::Object(name) => push_qname(text, name)?,
        Subject::PreEntry { pgm, sbs } => {
            push_qname(text, pgm)?;
            text.push_str(" in ")?;
            text.push_str(sbs.as_str())?;
        }
    }
    Ok(())
}

// The command's word, and what it is about.
fn made(alloc: Global, mention: &Mention) -> Result<String, NoMemory>
    ensures { IfOk result (λ text. string_bytes text ≡ made_text mention.now) }
{
    let mut text = begun(alloc, "OK ")?;
    text.push_str(change_word(mention.verb))?;
    push_subject(&mut text, &mention.subject)?;
    Ok(text)
}

// The queue that a command is about, and what became of it.
fn queue(alloc: Global, subject: &Subject, end: &str) -> Result<String, NoMemory>
    ensures { IfOk result (λ text. string_bytes text ≡ queue_text subject.now end.now) }
{
    let mut text = begun(alloc, "OK queue")?;
    push_subject(&mut text, subject)?;
    text.push_str(end)?;
    Ok(text)
}

// That the queue was cleared, and of how many jobs.
fn cleared(alloc: Global, subject: &Subject, count: u32) -> Result<String, NoMemory>
    ensures { IfOk result (λ text. string_bytes text ≡ queue_text subject.now (codes " cleared of " ++ decimal count ++ codes " jobs")) }
{
    let end = format!(in alloc; " cleared of {count} jobs")?;
    let text = queue(alloc, subject, end.as_str())?;
    Ok(text)
}

// The prestart entry that a command is about, and what became of it.
fn prestart(alloc: Global, subject: &Subject, end: &str) -> Result<String, NoMemory>
    ensures { IfOk result (λ text. string_bytes text ≡ prestart_text subject.now end.now) }
{
    let mut text = begun(alloc, "OK prestart")?;
    push_subject(&mut text, subject)?;
    text.push_str(end)?;
    Ok(text)
}

/// What is said of the reply to a monitor's call, a line without its end. An `Err` is want of memory.
pub fn noted(alloc: Global, reply: &Reply) -> Result<String, NoMemory>
    ensures { IfOk result (λ text. string_bytes text ≡ noted_text reply.now) }
{
    match reply {
        Reply::Order(asked) => order_text(alloc, asked.get()),
        Reply::Nothing => String::from_str(alloc, "NOTHING"),
        Reply::Noted => String::from_str(alloc, "NOTED"),
        Reply::No(refusal) => refused(alloc, refusal),
        _ => Ok(String::new(alloc)),
    }
}

/// What is said of a command's reply, a line without its end. An `Err` is want of memory.
pub fn said(alloc: Global, mention: &Mention, reply: &Reply) -> Result<String, NoMemory>
    ensures { IfOk result (λ text. string_bytes text ≡ said_of mention.now reply.now) }
{
    match reply {
        Reply::Made => made(alloc, mention),
        Reply::SbsStarted(sbs) => format!(in alloc; "OK subsystem {sbs} started"),
        Reply::SbsEnding(sbs) => format!(in alloc; "OK subsystem {sbs} ending"),
        Reply::Submitted(job, jobq) => submitted(alloc, job, jobq),
        Reply::Held(job) => job_line(alloc, job, " held"),
        Reply::Released(job) => job_line(alloc, job, " released"),
        Reply::Changed(job) => job_line(alloc, job, " changed"),
        Reply::JobEnding(job) => job_line(alloc, job, " ending"),
        Reply::JobEnded(job) => job_line(alloc, job, " ended"),
        Reply::QueueHeld => queue(alloc, &mention.subject, " held"),
        Reply::QueueReleased => queue(alloc, &mention.subject, " released"),
        Reply::QueueCleared(count) => cleared(alloc, &mention.subject, *count),
        Reply::PreStarted => prestart(alloc, &mention.subject, " started"),
        Reply::PreEnding => prestart(alloc, &mention.subject, " ending"),
        Reply::Evoked(job) => job_line(alloc, job, " has the request"),
        Reply::EvokeWaits(position) => format!(in alloc; "OK request waits as {position}"),
        Reply::UseEnded(job) => job_line(alloc, job, " use ended"),
        Reply::PowerDown => String::from_str(alloc, "OK power down"),
        Reply::Order(_) | Reply::Nothing | Reply::Noted | Reply::No(_) => noted(alloc, reply),
    }
}
