// What a reading command shows.
use crate::choosing::{is_ending, submitted_jobs};
use crate::hosting::{hosted_jobs, lines_among};
use crate::lines::job_line;
use crate::queueing::queued_jobs;
use crate::sorting::sorted;
use crate::{ActiveLines, JobLines, JobShown, Parts, QueueShown, SbsLine, SbsLines, Shown};
use std::alloc::Global;
use wm_base::{Kind, Limit, Name, NoMemory, QName, Refusal};
use wm_law::{Ask, Job, JobRef, Sbs};
use wm_pick::Counted;

impl<'a> Parts<'a> {
    ghost use Rattle.std.specs.Prelude.{◌≡◌, map, IfOk};
    ghost use Rattle.wm_law.specs.declared.state.State.{State};
    ghost use Rattle.wm_law.specs.Counts.{count_in_sbs};
    ghost use Rattle.wm_law.specs.Named.{job_named};
    ghost use Rattle.wm_views.specs.Parts.{parts_of};
    ghost use Rattle.wm_views.specs.Sorted.{sorted};
    ghost use Rattle.wm_desc.specs.Table.{object_named};
    ghost use Rattle.wm_views.specs.Views.{by_name, active_lines, waiting_jobs, queue_shown, queue_view, submitted_lines, maxjobs_of, sbs_line, sbs_lines, job_shown, job_or_no, shown};

    // The started subsystems by their names.
    fn by_name(&self, alloc: Global) -> Result<Vec<Sbs>, NoMemory>
        ensures { IfOk result (λ list. list.items ≡ sorted by_name self.now.started) }
    {
        sorted(alloc, self.started.as_slice())
    }

    #[tactic(auto, using(crate::proofs::HostedJobs::same_lines))]
    fn active_lines(&self, alloc: Global) -> Result<ActiveLines, NoMemory>
        ensures { IfOk result (λ lines. lines ≡ active_lines self.now) }
    {
        let active = hosted_jobs(alloc, self.jobs)?;
        let started = self.by_name(alloc)?;
        let lines = lines_among(alloc, &active, &started)?;
        Ok(ActiveLines::from(lines))
    }

    // The jobs that wait on a queue, in their turn.
    fn waiting_jobs(&self, alloc: Global, jobq: &QName) -> Result<JobLines, NoMemory>
        ensures { IfOk result (λ lines. lines ≡ waiting_jobs self.now jobq.now) }
    {
        let lines = queued_jobs(alloc, self.jobs, jobq)?;
        Ok(JobLines::from(lines))
    }

    fn queue_shown(&self, alloc: Global, jobq: &QName) -> Result<QueueShown, NoMemory>
        ensures { IfOk result (λ queue. queue ≡ queue_shown self.now jobq.now) }
    {
        Ok(QueueShown {
            jobq: *jobq,
            held: self.held.contains(jobq),
            jobs: self.waiting_jobs(alloc, jobq)?,
        })
    }

    fn queue_view(&self, alloc: Global, jobq: &QName) -> Result<Shown, NoMemory>
        ensures { IfOk result (λ view. view ≡ queue_view self.now jobq.now) }
    {
        if self.objects.jobqs.object(jobq).is_some() {
            Ok(Shown::Queue(self.queue_shown(alloc, jobq)?))
        } else {
            Ok(Shown::No(Refusal::NoObject(Kind::Jobq)))
        }
    }

    fn submitted_lines(&self, alloc: Global, user: &Name) -> Result<JobLines, NoMemory>
        ensures { IfOk result (λ lines. lines ≡ submitted_lines self.now user.now) }
    {
        let lines = submitted_jobs(alloc, self.jobs.clock(), self.jobs.jobs(), user)?;
        Ok(JobLines::from(lines))
    }

    // The active jobs of a subsystem, by the tally.
    fn count_in_sbs(&self, sbs: &QName) -> u32
        ensures { result ≡ count_in_sbs sbs.now self.now.jobs }
    {
        self.jobs.tally().count(&Counted::Sbs(*sbs))
    }

    fn maxjobs_of(&self, sbs: &QName) -> Limit
        ensures { result ≡ maxjobs_of (object_named sbs.now self.now.objects.sbsds) }
    {
        match self.objects.sbsds.object(sbs) {
            None => Limit::NoMax,
            Some(description) => description.maxjobs,
        }
    }

    fn sbs_line(&self, sbs: &Sbs) -> SbsLine
        ensures { result ≡ sbs_line self.now sbs.now }
    {
        SbsLine {
            sbs: sbs.sbsd,
            count: self.count_in_sbs(&sbs.sbsd),
            maxjobs: self.maxjobs_of(&sbs.sbsd),
            ending: is_ending(sbs),
        }
    }

    fn counts_of(&self, alloc: Global, started: &[Sbs]) -> Result<Vec<SbsLine>, NoMemory>
        ensures { IfOk result (λ lines. lines.items ≡ map (sbs_line self.now) started.now) }
    {
        started.iter().map(|sbs| self.sbs_line(sbs)).collect(alloc)
    }

    fn sbs_lines(&self, alloc: Global) -> Result<SbsLines, NoMemory>
        ensures { IfOk result (λ lines. lines ≡ sbs_lines self.now) }
    {
        let started = self.by_name(alloc)?;
        let lines = self.counts_of(alloc, &started)?;
        Ok(SbsLines::from(lines))
    }

    fn job_shown(&self, job: &Job) -> JobShown
        ensures { result ≡ job_shown self.now job.now }
    {
        JobShown {
            line: job_line(self.jobs.clock(), job),
            jobq: job.jobq,
        }
    }

    fn job_view(&self, reference: &JobRef) -> Shown
        ensures { result ≡ job_or_no self.now (job_named self.now reference.now) }
    {
        match self.jobs.named(reference) {
            Err(refusal) => Shown::No(refusal),
            Ok(job) => Shown::Job(self.job_shown(job)),
        }
    }

    // What is shown of these parts.
    fn shown(&self, alloc: Global, ask: &Ask) -> Result<Shown, NoMemory>
        ensures { IfOk result (λ view. view ≡ shown self.now ask.now) }
    {
        match ask {
            Ask::Active => Ok(Shown::Active(self.active_lines(alloc)?)),
            Ask::Queue(jobq) => Ok(self.queue_view(alloc, jobq)?),
            Ask::Submitted(user) => Ok(Shown::Submitted(self.submitted_lines(alloc, user)?)),
            Ask::Subsystems => Ok(Shown::Subsystems(self.sbs_lines(alloc)?)),
            Ask::Job(reference) => Ok(self.job_view(reference)),
            Ask::Log | Ask::Pending(_) => Ok(Shown::NoView),
        }
    }

    /// What a reading command shows of a state that has these parts. An `Err` is want of memory.
    pub fn view(&self, alloc: Global, ask: &Ask) -> Result<Shown, NoMemory>
        ensures { (s : State) → self.now ≡ parts_of s → IfOk result (λ view. view ≡ shown s ask.now) }
    {
        self.shown(alloc, ask)
    }
}
