// The row of a job.
ghost use Rattle.std.specs.Prelude.{◌≡◌, IfOk, IfSome, None, Some};
ghost use Rattle.wm_base.specs.Number.{zero_padded};
ghost use Rattle.wm_rows.specs.Stored.{stored_of, IsStored, IsPhase};
ghost use Rattle.wm_rows.specs.JobText.{job_row};
ghost use Rattle.wm_rows.specs.declared.stored_job.StoredJob.{StoredJob};

use crate::kept::stored_of;
use crate::line::read_text;
use crate::printing::job_text;
use crate::stored_job::StoredJob;
use std::alloc::Global;
use wm_base::{NoMemory, Text};
use wm_law::Job;
use wm_traits::Row;

#[tactic(auto, using(wm_base::proofs::Texts::padded))]
fn key_of(alloc: Global, serial: u64) -> Result<Text, NoMemory>
    ensures { IfOk result (λ key. key ≡ zero_padded 20 serial) }
{
    let digits = format!(in alloc; "{serial:020}")?;
    let key = Text::from_bytes(alloc, digits.as_bytes())?;
    Ok(key)
}

fn stored_row(alloc: Global, job: &StoredJob) -> Result<Row, NoMemory>
    ensures { IfOk result (λ row. row ≡ job_row job.now) }
{
    let key = key_of(alloc, job.serial)?;
    let body = job_text(alloc, job)?;
    Ok(Row { tab: 11, key, body })
}

/// The row of what is stored of a job. An `Err` is want of memory.
pub fn job_row(alloc: Global, job: &Job) -> Result<Row, NoMemory>
    ensures { IfOk result (λ row. row ≡ job_row (stored_of job.now)) }
{
    let stored = stored_of(job)?;
    let row = stored_row(alloc, &stored)?;
    Ok(row)
}

/// The stored job whose row this is, or None where the row is no job's. An `Err` is want of memory.
pub fn read_job(alloc: Global, row: &Row) -> Result<Option<StoredJob>, NoMemory>
    ensures value { IfOk result (λ o. IfSome o (λ job. job_row job ≡ row.now)) }
    ensures range { IfOk result (λ o. IfSome o (λ job. IsPhase job.phase)) }
    ensures exactly { IfOk result (λ o. o ≡ None → (job : StoredJob) → IsStored job → job_row job ≡ row.now → ⊥) }
    ensures one { IfOk result (λ o. (job : StoredJob) → IsStored job → job_row job ≡ row.now → o ≡ Some job) }
{
    let Some(job) = read_text(alloc, row.body.as_bytes())? else {
        return Ok(None);
    };
    let printed = stored_row(alloc, &job)?;
    if printed == *row {
        Ok(Some(job))
    } else {
        Ok(None)
    }
}
