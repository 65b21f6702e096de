// What settles once what was due has ended: ending subsystems leave, prestart entries are supplied, and the jobs start whose turn
// has come.
use crate::Machine;
use std::alloc::Global;
use std::marker::Brand;
use std::sync::ledger::{Blank, Ledger};
use wm_base::{NoMemory, QName, Steps};
use wm_law::{Candidate, Job, Launched};

impl Machine {
    ghost use Rattle.std.specs.Prelude.{◌≡◌, ◌<◌, Some, OnOk, OnErr};
    ghost use Rattle.wm_law.specs.Choice.{next};
    ghost use Rattle.wm_law.specs.Launch.{routed_from_queue, launch};
    ghost use Rattle.wm_law.specs.Settling.{leave, start_jobs};
    ghost use Rattle.wm_law.specs.Supply.{supply};
    ghost use Rattle.wm_core.specs.Aside.{aside_of};

    // The job that starts next.
    fn next<L: Ledger>(&self, steps: &mut Steps<L>) -> Option<Candidate>
        ensures { result ≡ next self.now.state }
    {
        self.parts().next(steps)
    }

    // What the launch of a job of a queue makes of it.
    fn launched(&self, sbs: &QName, queue: &QName, job: &Job) -> Launched
        ensures { result ≡ routed_from_queue self.now.state sbs.now queue.now job.now }
    {
        self.parts().launched(sbs, queue, job)
    }

    // The candidate is the next job, so it waits.
    fn launch(&mut self, candidate: &Candidate)
        requires { next self.old.state ≡ Some candidate.now }
        ensures state { self.new.state ≡ launch self.old.state candidate.now }
        ensures marks { self.new.marks ≡ self.old.marks }
    {
        let launched = match self.table.job(candidate.serial) {
            None => return,
            Some(job) => self.launched(&candidate.sbs, &candidate.jobq, job),
        };
        self.table.launch(candidate.serial, &launched);
    }

    // Each launch leaves one job less that waits.
    fn start_jobs<L: Ledger>(&mut self, steps: &mut Steps<L>)
        ensures state { self.new.state ≡ start_jobs self.old.state }
        ensures marks { self.new.marks ≡ self.old.marks }
    {
        while let Some(candidate) = self.next(steps) {
            self.launch(&candidate);
        }
    }

    fn start_counted<L: Ledger>(&mut self, blank: Blank)
        requires name { blank.name ≡ L.name }
        requires parts { blank.parts ≡ L.parts }
        requires some { 0 < blank.parts }
        ensures state { self.new.state ≡ start_jobs self.old.state }
        ensures marks { self.new.marks ≡ self.old.marks }
    {
        let mut steps = Steps::<L>::new(blank);
        self.start_jobs(&mut steps);
    }

    /// Ending subsystems leave, prestart entries are supplied, and the jobs start whose turn has come. An `Err` is want of
    /// memory, perhaps in the middle.
    pub(crate) fn settle(&mut self, alloc: Global) -> Result<(), NoMemory>
        ensures ok { OnOk result (self.new.state ≡ start_jobs (supply (leave self.old.state))) }
        ensures aside { OnErr result (aside_of self.new.state ≡ aside_of self.old.state) }
        ensures marks { self.new.marks ≡ self.old.marks }
    {
        self.leave();
        self.supply(alloc)?;
        self.start_counted::<Brand>(Blank::new(1));
        Ok(())
    }
}
