// The text of a drill.
ghost use Rattle.std.specs.Prelude.{◌≡◌, ◌++◌, ◌<◌, IfOk, OnOk, string_bytes};
ghost use Rattle.wm_runs.specs.Draws.{next_draw};
ghost use Rattle.wm_runs.specs.Text.{drill_text, job_command, job_line, job_lines, line_of};

use crate::draws::Draws;
use std::alloc::Global;
use wm_base::NoMemory;

// Three queues, and a subsystem that takes eight jobs, of each queue four.
const SETUP: &str = "CRTJOBQ Q1
CRTJOBQ Q2
CRTJOBQ Q3
CRTSBSD SBSD(DRILL) MAXJOBS(8)
ADDJOBQE SBSD(DRILL) JOBQ(Q1) MAXACT(4) SEQNBR(10)
ADDJOBQE SBSD(DRILL) JOBQ(Q2) MAXACT(4) SEQNBR(20)
ADDJOBQE SBSD(DRILL) JOBQ(Q3) MAXACT(4) SEQNBR(30)
ADDRTGE SBSD(DRILL) SEQNBR(9999) CMPVAL(*ANY) PGM(QSYS/QCMD) CLS(QBATCH)
STRSBS DRILL
";

// The command that submits a job.
#[tactic(auto, using(wm_base::proofs::Numbers::padded))]
fn job_command(alloc: Global, i: u32, queue: u32, pty: u32) -> Result<String, NoMemory>
    ensures { IfOk result (λ text. string_bytes text ≡ job_command i queue pty) }
{
    let ending = i % 100;
    format!(in alloc;
        "SBMJOB CMD(CALL PGM(ECHO) PARM('{i}')) JOB(J{ending:02}) JOBQ(Q{queue}) JOBPTY({pty})"
    )
}

// Adds the line of one job.
fn push_job(alloc: Global, text: &mut Vec<u8>, i: u32, draws: &mut Draws) -> Result<(), NoMemory>
    ensures text { OnOk result (text.new.items ≡ text.old.items ++ job_line i draws.old.last) }
    ensures draws { OnOk result (draws.new.last ≡ next_draw (next_draw draws.old.last)) }
{
    let pty = 1 + draws.draw(9);
    let queue = 1 + draws.draw(3);
    let command = job_command(alloc, i, queue, pty)?;
    text.extend_from_slice(command.as_bytes())?;
    text.push(b'\n')?;
    Ok(())
}

// Adds the lines of all jobs.
fn push_jobs(
    alloc: Global,
    text: &mut Vec<u8>,
    draws: &mut Draws,
    jobs: u32,
) -> Result<(), NoMemory>
    ensures { OnOk result (text.new.items ≡ text.old.items ++ job_lines jobs 1 draws.old.last) }
{
    for at in 0..jobs {
        push_job(alloc, text, at + 1, draws)?;
    }
    Ok(())
}

/// The text of a drill. An `Err` is want of memory.
pub fn drill_text(alloc: Global, seed: u64, jobs: u32) -> Result<Vec<u8>, NoMemory>
    ensures { IfOk result (λ text. text.items ≡ drill_text seed jobs) }
{
    let mut text = Vec::from_slice(alloc, SETUP.as_bytes())?;
    let mut draws = Draws { last: seed };
    push_jobs(alloc, &mut text, &mut draws, jobs)?;
    Ok(text)
}
