//! The machine as definitions: the types of its state, calls and replies, the rules, and the laws that follow from them.
//!
//! The contract for the layers above: the definition `step` of `specs/Machine.antt` says what the machine answers and
//! leaves, and `specs/History.antt` which histories are legal; the laws of `laws.rt` and `prestart_laws.rt` hold for all of
//! them. Beside the types there are only a list (`ListOf`) and a box (`Boxed`), which contracts see as what is in them: the
//! crates above compute what these definitions say.
//!
//! The definitions are in `specs/`: `Machine` (a step), whose parts stand by subject in `Making`, `Subsystems`, `Autos`,
//! `Submitting`, `Schedules`, `Holding`, `Changing`, `Queues`, `Endings`, `Power`, `Reports` and `Settling`; `Named` (which job
//! a command names); `Wishes` (whether an active job is to end, and when); `Choice` and `Launch` (which job starts, and what
//! becomes of it); `Prestart` (how many prestart jobs are made, which gets a request, and what the end of a use comes to);
//! `Jobs` (a change to one job); `Counts`; `Opening`; `Pending` (what a monitor asks); `Stepped` (what a call
//! comes to); `Fit` (which calls the machine has, and their ranges), `Ranges` (which objects and ends keep theirs), `Again` (the command
//! that makes a thing again), `Configured` (what a call may change of the objects and the held queues) and `CallKinds` (which
//! calls end jobs, and which change objects). What follows
//! from them: `Laws` and `Kept`; `Limits` (no start passes a limit), `Order` (jobs are launched in their order), `Objects`
//! (what holds of tables and subsystem descriptions), `Leaving` (which ending subsystems stay), `Handing` (which order Hand
//! gives), `NextMoment` (what Pending tells), `Supplied` (what settling leaves of prestart entries' idle jobs, waiting requests
//! and lacks), `Requests` (what becomes of a waiting request), `Sound` (what holds of each state that a history reaches, and
//! over each entry), `SoundPrestart` (what holds there of prestart jobs, stopped entries and requests) and `Maxuse` (no job is
//! used too often).
#![tactic(auto)]

mod boxed;
mod call;
mod choice;
mod command;
mod configured;
mod configuring;
mod job;
mod launch;
mod laws;
mod list;
mod pending;
mod prestart_laws;
mod state;

pub use boxed::Boxed;
pub use call::{Call, Entry, Reply};
pub use choice::{Candidate, Rank};
pub use command::{
    Addaje, Addjobqe, Addpje, Addrtge, Ask, Chgjob, Clrjobq, Command, Crtcls, Crtjobd, Crtjobq,
    Crtpgmref, Crtsbsd, EndOption, Endjob, Endpj, Endsbs, Enduse, EvokeCommand, Hldjob, Hldjobq,
    JobRef, Pwrdwnsys, Rlsjob, Rlsjobq, Rmvaje, Rmvjobqe, Rmvpje, Rmvrtge, Sbmjob, Strpj, Strsbs,
};
pub use configured::Configured;
pub use job::{Job, JobKind, Phase, Why, Wish};
pub use launch::Launched;
pub use laws::{
    autostart_jobs_never_wait, calls_are_answered, ending_subsystems_have_jobs, first_job_is_least,
    hand_gives_the_least, jobs_are_launched_in_order, jobs_go_forward, jobs_start_in_order,
    next_job_is_first, next_moment_is_soonest, no_start_passes_a_limit,
    none_is_active_without_power, numbers_are_given_once, refusals_leave_the_state,
    routes_are_least, serials_are_killed_once, serials_start_once, settling_ends_what_is_due,
    settling_leaves_none, started_are_described, started_names_are_distinct,
    starting_jobs_have_orders, states_are_sound,
};
pub use list::ListOf;
pub use pending::Pending;
pub use prestart_laws::{
    entries_are_served, entries_have_their_jobs, first_idle_job_is_first, prestart_jobs_are_sound,
    requests_are_kept, rounds_make_what_is_lacking, uses_stay_within_maxuse,
};
pub use state::{Evoke, Evokes, Jobs, Power, QNames, Sbs, SbsList, SbsPhase, State, Stop, Stops};
