// Laws of the active prestart jobs. They are no calls.
ghost use Rattle.wm_indexes.specs.OfJobs.{AvailableAreCounted, FirstIdleIsFound};

/// What is counted and found among the active prestart jobs of a state is what its definitions count and find: how many jobs
/// of an entry are available, and the serial of its idle job of least number.
pub fn prestart_jobs_are_of_the_state()
    ensures available { AvailableAreCounted }
    ensures first { FirstIdleIsFound }
{}
