// Laws of the tally. They are no calls.
ghost use Rattle.wm_pick.specs.Tallied.{TallyHasCounts};

/// The tally of the active jobs' hows has the counts of the jobs.
#[tactic(auto, using(crate::proofs::TalliedJobs::tally_has_counts))]
pub fn tally_has_counts()
    ensures { TallyHasCounts }
{}
