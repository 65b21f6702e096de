// The law of ENDJOB. It is no call.
ghost use Rattle.wm_subsystems.specs.OneJob.{EndsOneJob};

/// ENDJOB on a job of a state answers by what it makes of that job, and makes that of it alone.
#[tactic(auto, using(crate::proofs::OneJobs::ends_one_job))]
pub fn ending_ends_one_job()
    ensures { EndsOneJob }
{}
