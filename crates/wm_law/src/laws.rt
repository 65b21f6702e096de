// Laws of the machine: what its definitions come to, each for all states. They are no calls.
ghost use Rattle.wm_law.specs.Laws.{FirstIsLeast, LesserComesBefore, NoFirstIsNone, NextIsFirst, NoNextIsNone, RouteIsLeast, NoRouteIsNone, SettledHasNoNext, SettledLeavesNone, RefusalLeaves, RefusedStepSettles, CallsAreAnswered};
ghost use Rattle.wm_law.specs.Kept.{OpeningIsNumbered, StepKeepsNumbers, NumbersAreGivenOnce, StepGoesOn, SerialsStartOnce, SerialsAreKilledOnce, OpeningHasOrders, OpeningHasDescriptions, StepKeepsDescriptions, StartedAreDescribed, OpeningIsQuiet, StepKeepsQuiet, NoneIsActiveWithoutPower, OpeningHasDistinctNames, StepKeepsNamesDistinct, StartedNamesAreDistinct, StartsInOrder};
ghost use Rattle.wm_law.specs.Handing.{HandedKillIsLeast, HandedStartIsLeast};
ghost use Rattle.wm_law.specs.Leaving.{EndingSubsystemsHaveJobs, StepLeavesEndingJobs};
ghost use Rattle.wm_law.specs.NextMoment.{NextMomentIsSoonest};
ghost use Rattle.wm_law.specs.Sound.{StepKeepsOrders, StartingJobsHaveOrders, HandGivesAnOrder, ReachedRouteIsLeast, AutostartJobsNeverWait, OpeningIsSound, StepKeepsSound, StatesAreSound, OpeningHasNoneDue, StepLeavesNoneDue, NoneIsDue, CallsLeaveNoneDue, NothingDueStays, NoneDueBefore, StepKeepsLimits, LimitsAreKept, StepKeepsOrder, OrderIsKept};

/// The first job of a subsystem may start there, and no other job that may start there stands before
/// it: by the sequence numbers of the queue entries, then the priorities, then the places. Where there
/// is no first job, no job may start there.
#[tactic(auto, using(crate::proofs::Firsts::first_is_least, crate::proofs::Firsts::no_first_is_none, crate::proofs::Ranks::comes_before))]
pub fn first_job_is_least()
    ensures first { FirstIsLeast }
    ensures none { NoFirstIsNone }
    ensures order { LesserComesBefore }
{}

/// The next job is the first of its subsystem: it may start, and no other job there that may start
/// stands before it. No job may start in a subsystem whose simple name comes before. Where there is
/// no next job, no job may start.
#[tactic(auto, using(crate::proofs::Firsts::next_is_first, crate::proofs::Firsts::no_next_is_none))]
pub fn next_job_is_first()
    ensures first { NextIsFirst }
    ensures none { NoNextIsNone }
{}

/// The routing entry of a job is the one of least number that its routing data passes, and there is
/// none only where its routing data passes none.
pub fn routes_are_least()
    ensures least { RouteIsLeast }
    ensures none { NoRouteIsNone }
    ensures always { ReachedRouteIsLeast }
{}

/// Once the state has settled, no job may start.
pub fn settling_leaves_none()
    ensures next { SettledHasNoNext }
    ensures none { SettledLeavesNone }
{}

/// A refused call changes nothing but the clock and what the clock brings in settling.
pub fn refusals_leave_the_state()
    ensures call { RefusalLeaves }
    ensures step { RefusedStepSettles }
{}

/// No serial or job number is given twice, and no two Waiting jobs have one place. The next ones stay
/// in their ranges.
pub fn numbers_are_given_once()
    ensures opening { OpeningIsNumbered }
    ensures step { StepKeepsNumbers }
    ensures always { NumbersAreGivenOnce }
{}

/// No step loses a job, renames it, or takes its phase or its wish back. A wish to end now keeps its cause,
/// and an active job that has one ends by it, or since it couldn't be started. An ended job keeps its cause.
#[tactic(auto, using(crate::proofs::Forward::step_goes_on))]
pub fn jobs_go_forward()
    ensures { StepGoesOn }
{}

/// From a numbered state, as the opening one is, a legal history orders each serial to start at most once,
/// whichever monitors ask.
#[tactic(auto, using(crate::proofs::Starts::serials_start_once))]
pub fn serials_start_once()
    ensures { SerialsStartOnce }
{}

/// From a numbered state a legal history orders each serial to be killed at most once, whichever monitors ask.
#[tactic(auto, using(crate::proofs::Starts::serials_are_killed_once))]
pub fn serials_are_killed_once()
    ensures { SerialsAreKilledOnce }
{}

/// Each Starting job has its order, so Hand answers Nothing exactly where no job is Starting and no kill
/// is to be handed to its monitor.
pub fn starting_jobs_have_orders()
    ensures opening { OpeningHasOrders }
    ensures step { StepKeepsOrders }
    ensures always { StartingJobsHaveOrders }
    ensures hand { HandGivesAnOrder }
{}

/// A kill that Hand orders is one of its caller's own jobs, that of least serial which is yet to be handed.
/// Where it orders a start, no kill is yet to be handed to its caller, and the start is that of least serial.
pub fn hand_gives_the_least()
    ensures kill { HandedKillIsLeast }
    ensures start { HandedStartIsLeast }
{}

/// No two started subsystems have one simple name.
pub fn started_names_are_distinct()
    ensures opening { OpeningHasDistinctNames }
    ensures step { StepKeepsNamesDistinct }
    ensures always { StartedNamesAreDistinct }
{}

/// Settling's last part goes over the started subsystems in the order of their simple names, and launches
/// each one's first job while it has one.
#[tactic(auto, using(crate::proofs::InTurn::starts_in_order))]
pub fn jobs_start_in_order()
    ensures { StartsInOrder }
{}

/// Each started subsystem has its description.
pub fn started_are_described()
    ensures opening { OpeningHasDescriptions }
    ensures step { StepKeepsDescriptions }
    ensures always { StartedAreDescribed }
{}

/// Where the power isn't On, no started subsystem is Active.
pub fn none_is_active_without_power()
    ensures opening { OpeningIsQuiet }
    ensures step { StepKeepsQuiet }
    ensures always { NoneIsActiveWithoutPower }
{}

/// After each entry each ending subsystem has an active job: one that has none has left.
pub fn ending_subsystems_have_jobs()
    ensures step { StepLeavesEndingJobs }
    ensures always { EndingSubsystemsHaveJobs }
{}

/// The next moment that Pending tells is above the clock, and the soonest of those at which a Waiting job is due,
/// an active job is to end by its wish, or an ending subsystem is to end. There is none only where none of them
/// is above the clock.
#[tactic(auto, using(crate::proofs::NextMoment::next_moment_is_soonest))]
pub fn next_moment_is_soonest()
    ensures { NextMomentIsSoonest }
{}

/// A call that the machine has is never answered Nothing, Hand aside.
#[tactic(auto, using(crate::proofs::Answered::calls_are_answered))]
pub fn calls_are_answered()
    ensures { CallsAreAnswered }
{}

/// A history from the opening state reaches sound states only, whatever was called.
pub fn states_are_sound()
    ensures opening { OpeningIsSound }
    ensures step { StepKeepsSound }
    ensures always { StatesAreSound }
{}

/// Once the state has settled, nothing is left that is due to end: the moment of no ending subsystem has
/// come, no active job has a wish that is due, no Starting job is to end now, and each active job of a
/// subsystem that ends now is to end now, too. A call that tells nothing to end makes nothing due, and
/// nothing comes due before the next moment of a wish or of an ending subsystem. Where nothing is due,
/// settling's first part does nothing.
pub fn settling_ends_what_is_due()
    ensures opening { OpeningHasNoneDue }
    ensures step { StepLeavesNoneDue }
    ensures always { NoneIsDue }
    ensures calls { CallsLeaveNoneDue }
    ensures stays { NothingDueStays }
    ensures before { NoneDueBefore }
{}

/// An autostart job is launched as it is made, so it never waits, whatever was called.
#[tactic(auto, using(crate::proofs::Sound::autostart_jobs_never_wait))]
pub fn autostart_jobs_never_wait()
    ensures { AutostartJobsNeverWait }
{}

/// No start passes a limit, whatever was called: where a job became Starting in an entry, the count of
/// its queue entry is then at most MAXACT, that with its priority at most MAXPTY of the priority, and
/// that of its routing entry at most MAXACT. That of its subsystem is at most MAXJOBS, where the job
/// isn't an autostart job.
pub fn no_start_passes_a_limit()
    ensures step { StepKeepsLimits }
    ensures always { LimitsAreKept }
{}

/// The jobs are launched in their order, whatever was called. After each entry no job is ready and
/// allowed. Where a job was launched in an entry, each ready job of the same subsystem that stands
/// before it waits because a limit of its queue entry was reached without the jobs behind it. A
/// launched job isn't held, nor is its queue; it is due, and its holder is Active; and it starts by its
/// first matching routing entry, or has ended because that one is full or there is none. An autostart
/// job that started did so by its first matching routing entry, too. No job is lost, none goes back to an
/// earlier phase, and no serial is given again.
pub fn jobs_are_launched_in_order()
    ensures step { StepKeepsOrder }
    ensures always { OrderIsKept }
{}
