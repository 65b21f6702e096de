// Words, names, numbers, jobs, compare values, dates and times behind a text. An `Err` is want of memory.
ghost use Rattle.std.specs.Prelude.{◌≡◌, ◌++◌, ◌<◌, ◌^◌, OnOk, IfOk};
ghost use Rattle.std.specs.Fmt.{decimal};
ghost use Rattle.wm_base.specs.Number.{zero_padded};
ghost use Rattle.wm_base.specs.Text.{IsText};
ghost use Rattle.wm_command.specs.Texts.{job_text, cmp_text, date_text, time_text};

use crate::words::date_word;
use std::alloc::Global;
use wm_base::{Name, NoMemory, Text};
use wm_clwords::push_quoted;
use wm_desc::Cmp;
use wm_law::JobRef;
use wm_when::{DateSpec, TimeSpec};

/// Puts a word as it stands.
pub fn push_word(out: &mut Text, word: &str) -> Result<(), NoMemory>
    requires { IsText word.now }
    ensures { OnOk result (out.new ≡ out.old ++ word.now) }
{
    out.push_bytes(word.as_bytes())?;
    Ok(())
}

/// Puts a name as it is written in a command.
#[tactic(auto, using(wm_clwords::proofs::Names::texts))]
pub fn push_name(out: &mut Text, name: &Name) -> Result<(), NoMemory>
    ensures { OnOk result (out.new ≡ out.old ++ name.now) }
{
    out.push_bytes(name.as_bytes())?;
    Ok(())
}

/// Puts a number in decimal digits, without zeros in front.
#[tactic(auto, using(wm_clwords::proofs::Names::texts))]
pub fn push_number(alloc: Global, out: &mut Text, n: u32) -> Result<(), NoMemory>
    ensures { OnOk result (out.new ≡ out.old ++ decimal n) }
{
    let digits = format!(in alloc; "{n}")?;
    out.push_bytes(digits.as_bytes())?;
    Ok(())
}

// Puts a number below 100 in two digits.
#[tactic(auto, using(wm_base::proofs::Texts::padded))]
fn push_two(alloc: Global, out: &mut Text, n: u32) -> Result<(), NoMemory>
    ensures { OnOk result (out.new ≡ out.old ++ zero_padded 2 n) }
{
    let digits = format!(in alloc; "{n:02}")?;
    out.push_bytes(digits.as_bytes())?;
    Ok(())
}

/// Puts the reference of a job: its name, or with the user in front, or with the number in six digits and the user.
#[tactic(auto, using(wm_base::proofs::Texts::padded))]
pub fn push_job(alloc: Global, out: &mut Text, job: &JobRef) -> Result<(), NoMemory>
    ensures { OnOk result (out.new ≡ out.old ++ job_text job.now) }
{
    match job {
        JobRef::Simple(name) => push_name(out, name)?,
        JobRef::ByUser(user, name) => {
            push_name(out, user)?;
            out.push_bytes(b"/")?;
            push_name(out, name)?;
        }
        JobRef::Full(job) => {
            let number = format!(in alloc; "{:06}", job.number.get())?;
            out.push_bytes(number.as_bytes())?;
            out.push_bytes(b"/")?;
            push_name(out, &job.user)?;
            out.push_bytes(b"/")?;
            push_name(out, &job.name)?;
        }
    }
    Ok(())
}

/// Puts a compare value: \*ANY, or the value in apostrophes and the position where it begins.
pub fn push_cmp(alloc: Global, out: &mut Text, cmp: &Cmp) -> Result<(), NoMemory>
    ensures { OnOk result (out.new ≡ out.old ++ cmp_text cmp.now) }
{
    match cmp {
        Cmp::Any => out.push_bytes(b"*ANY")?,
        Cmp::Val { value, start } => {
            push_quoted(out, value)?;
            out.push_bytes(b" ")?;
            push_number(alloc, out, *start)?;
        }
    }
    Ok(())
}

/// Puts a date: its word, or a day as eight digits, the year first.
#[tactic(auto, using(wm_base::proofs::Texts::padded))]
pub fn push_date(alloc: Global, out: &mut Text, date: DateSpec) -> Result<(), NoMemory>
    ensures { OnOk result (out.new ≡ out.old ++ date_text date) }
{
    match date {
        DateSpec::Day(day) => {
            let digits = format!(in alloc; "{day:08}")?;
            out.push_bytes(digits.as_bytes())?;
        }
        word => push_word(out, date_word(word))?,
    }
    Ok(())
}

/// Puts a time: \*CURRENT, or hours, minutes and seconds in two digits each.
pub fn push_time(alloc: Global, out: &mut Text, time: &TimeSpec) -> Result<(), NoMemory>
    ensures { OnOk result (out.new ≡ out.old ++ time_text time.now) }
{
    match time {
        TimeSpec::Current => out.push_bytes(b"*CURRENT")?,
        TimeSpec::At(n) => {
            push_two(alloc, out, *n / 3600)?;
            push_two(alloc, out, *n / 60 % 60)?;
            push_two(alloc, out, *n % 60)?;
        }
    }
    Ok(())
}
