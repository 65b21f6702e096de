// Laws of prestart jobs: what their definitions come to, each for all states. They are no calls.
ghost use Rattle.wm_law.specs.Maxuse.{LegalAreCalls, MaxuseIsKept, OpeningIsWithinMaxuse, StepKeepsMaxuse, UsesAreKept};
ghost use Rattle.wm_law.specs.Prestart.{FirstIdleIsFirst, LeastMultipleIsLeast, RoundsReplenish};
ghost use Rattle.wm_law.specs.Requests.{AnsweredRequestsWait, CallsKeepRequests, OpeningHasNoneWaiting, RequestsAreKept, RequestsAreQueue, SettlingGivesOut, StepKeepsNoneWaiting, StepKeepsRequests};
ghost use Rattle.wm_law.specs.SoundPrestart.{OpeningIsPrestartSound, StatesArePrestartSound, StepKeepsPrestartSound};
ghost use Rattle.wm_law.specs.Supplied.{EntriesAreServed, EntriesHaveTheirJobs, OpeningHasItsJobs, OpeningIsServed, SettlingGivesJobs, SettlingServes, StepGivesJobs, StepServes, SupplyGivesEntryJobs, SupplyGivesJobs, SupplyServes, SupplyServesEntry};

/// Where the jobs that came by prestart entries stand in the order of their numbers, an entry's idle job of
/// least number is the first of its idle jobs in the list, and so the one of least serial.
#[tactic(auto, using(crate::proofs::FirstIdle::first_idle_is_first))]
pub fn first_idle_job_is_first()
    ensures { FirstIdleIsFirst }
{}

/// For a prestart entry that lacks available jobs, the least multiple of ADLJOBS that brings them to
/// THRESHOLD is made at once, as far as there is room. Rounds make the same jobs: in each of them ADLJOBS
/// jobs are made, or as many as there is room for, while fewer than THRESHOLD are available.
#[tactic(auto, using(crate::proofs::Multiples::least_multiple_is_least, crate::proofs::Rounds::rounds_replenish))]
pub fn rounds_make_what_is_lacking()
    ensures least { LeastMultipleIsLeast }
    ensures rounds { RoundsReplenish }
{}

/// From the opening state on, whatever was called: the jobs that came by prestart entries stand in the order
/// of their numbers. Of the jobs that haven't ended only Running prestart jobs have a request, and a job that
/// is yet to run has no uses. Each stopped entry, and each entry for which a request waits, is one of a started
/// subsystem's description, and at most 1,000 requests wait for one entry.
pub fn prestart_jobs_are_sound()
    ensures opening { OpeningIsPrestartSound }
    ensures step { StepKeepsPrestartSound }
    ensures always { StatesArePrestartSound }
{}

/// Where each call keeps its ranges, each prestart entry lets its jobs be used: MAXUSE is *NOMAX or at least 1.
/// The uses of each active prestart job are at most its entry's MAXUSE, and those of an idle one are below it.
/// In a legal history each call keeps its ranges.
pub fn uses_stay_within_maxuse()
    ensures opening { OpeningIsWithinMaxuse }
    ensures step { StepKeepsMaxuse }
    ensures always { MaxuseIsKept }
    ensures legal { LegalAreCalls }
    ensures uses { UsesAreKept }
{}

/// Once the state has settled, no prestart entry of an Active subsystem has both an idle job and a waiting
/// request: each entry's supply leaves it so, and neither the supply of later entries nor the jobs that then
/// start make a job idle or let a request wait.
pub fn entries_are_served()
    ensures opening { OpeningIsServed }
    ensures entry { SupplyServesEntry }
    ensures supply { SupplyServes }
    ensures settling { SettlingServes }
    ensures step { StepServes }
    ensures always { EntriesAreServed }
{}

/// Once the state has settled, a prestart entry of an Active subsystem is stopped, has THRESHOLD available jobs,
/// or adds none; or its MAXJOBS or that of its subsystem is reached, or no number is left. Each entry's supply
/// leaves it so, and neither the supply of later entries nor the jobs that then start take an available job
/// away or make room.
pub fn entries_have_their_jobs()
    ensures opening { OpeningHasItsJobs }
    ensures entry { SupplyGivesEntryJobs }
    ensures supply { SupplyGivesJobs }
    ensures settling { SettlingGivesJobs }
    ensures step { StepGivesJobs }
    ensures always { EntriesHaveTheirJobs }
{}

/// No request that waits for a prestart entry is lost, and none is given out twice, whatever was called. A call
/// adds one behind the others where it is EVOKE of the entry and is answered so, drops them where it is ENDPJ of
/// the entry, ENDSBS of its subsystem or PWRDWNSYS, and else leaves them; one that is answered with a place waits
/// there. Then settling gives out the first of them: the others wait in their order, and for each that is gone one
/// job more of the entry runs with a request. No request waits at an ending subsystem, so none goes as a subsystem
/// leaves. Over a history in which no call drops them, the requests are a queue: those that waited and those that
/// came behind them are those that were given out and those that wait.
pub fn requests_are_kept()
    ensures opening { OpeningHasNoneWaiting }
    ensures waiting { StepKeepsNoneWaiting }
    ensures call { CallsKeepRequests }
    ensures answer { AnsweredRequestsWait }
    ensures settling { SettlingGivesOut }
    ensures step { StepKeepsRequests }
    ensures always { RequestsAreKept }
    ensures queue { RequestsAreQueue }
{}
