// The active jobs, below their subsystems.
ghost use Rattle.std.specs.Prelude.{◌≡◌, map, IfOk};
ghost use Rattle.wm_law.specs.Counts.{is_in_sbs};
ghost use Rattle.wm_views.specs.Hosts.{hosted, hosted_jobs, lines_in, line_among};
ghost use Rattle.wm_views.specs.Sorted.{sorted};
ghost use Rattle.wm_views.specs.Views.{by_number};

use crate::choosing::is_ending;
use crate::lines::job_line;
use crate::shown::Hosted;
use crate::sorting::sorted;
use crate::{ActiveLine, JobLine, JobLines};
use std::alloc::Global;
use wm_base::{How, Moment, NoMemory, QName, Serial};
use wm_jobs::JobTable;
use wm_law::{Job, Sbs};

fn hosted(clock: Moment, job: &Job) -> Hosted
    ensures { result ≡ hosted clock job.now }
{
    Hosted {
        how: job.how,
        line: job_line(clock, job),
    }
}

/// The active jobs, in the order of their serials. It is one look for each, and one more.
pub(crate) fn hosted_jobs(alloc: Global, jobs: &JobTable) -> Result<Vec<Hosted>, NoMemory>
    ensures { IfOk result (λ list. list.items ≡ hosted_jobs jobs.now.clock jobs.now.jobs) }
{
    let mut list = Vec::new(alloc);
    let mut from = Serial::new(0);
    while let Some(job) = jobs.active_from(from) {
        list.push(hosted(jobs.clock(), job))?;
        from = Serial::new(job.serial.get() + 1);
    }
    Ok(list)
}

fn is_in_sbs(sbs: &QName, how: &How) -> bool
    ensures { result ≡ is_in_sbs sbs.now how.now }
{
    match how {
        How::NotYet => false,
        How::FromQueue { sbs: of, .. } | How::Auto { sbs: of, .. } | How::Pre { sbs: of, .. } => {
            of == sbs
        }
    }
}

fn lines_in(alloc: Global, hosts: &[Hosted], sbs: &QName) -> Result<Vec<JobLine>, NoMemory>
    ensures { IfOk result (λ lines. lines.items ≡ lines_in sbs.now hosts.now) }
{
    hosts
        .iter()
        .filter(|host| is_in_sbs(sbs, &host.how))
        .map(|host| host.line)
        .collect(alloc)
}

// The active jobs of a subsystem, by number.
fn jobs_of(alloc: Global, hosts: &[Hosted], sbs: &QName) -> Result<JobLines, NoMemory>
    ensures { IfOk result (λ lines. lines ≡ sorted by_number (lines_in sbs.now hosts.now)) }
{
    let lines = lines_in(alloc, hosts, sbs)?;
    Ok(JobLines::from(sorted(alloc, &lines)?))
}

fn line_among(alloc: Global, hosts: &[Hosted], sbs: &Sbs) -> Result<ActiveLine, NoMemory>
    ensures { IfOk result (λ line. line ≡ line_among hosts.now sbs.now) }
{
    Ok(ActiveLine {
        sbs: sbs.sbsd,
        ending: is_ending(sbs),
        jobs: jobs_of(alloc, hosts, &sbs.sbsd)?,
    })
}

/// The subsystems, each with its own of the active jobs.
pub(crate) fn lines_among(
    alloc: Global,
    hosts: &[Hosted],
    started: &[Sbs],
) -> Result<Vec<ActiveLine>, NoMemory>
    ensures { IfOk result (λ lines. lines.items ≡ map (line_among hosts.now) started.now) }
{
    let mut lines = Vec::new(alloc);
    for sbs in started {
        lines.push(line_among(alloc, hosts, sbs)?)?;
    }
    Ok(lines)
}
