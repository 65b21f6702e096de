// What is shown.
use wm_base::{EndCause, How, JobName, Limit, Priority, QName, Refusal};
use wm_law::{JobKind, ListOf};

/// What a job is said to be at: held, scheduled or released where it waits, to end now, starting, a prestart job without
/// a request, active, or ended.
#[derive(Clone, Copy)]
pub enum Status {
    Hld,
    Scd,
    Rls,
    End,
    Start,
    Psrw,
    Active,
    Ended(EndCause),
}

/// A job in one line.
#[derive(Clone, Copy)]
pub struct JobLine {
    pub job: JobName,
    pub kind: JobKind,
    pub pty: Priority,
    pub status: Status,
}

pub type JobLines = ListOf<JobLine>;

/// The line of an active job, with how it came into its subsystem.
#[derive(Clone, Copy)]
pub(crate) struct Hosted {
    pub(crate) how: How,
    pub(crate) line: JobLine,
}

/// A started subsystem with its active jobs.
#[derive(Drop)]
pub struct ActiveLine {
    pub sbs: QName,
    pub ending: bool,
    pub jobs: JobLines,
}

pub type ActiveLines = ListOf<ActiveLine>;

/// A started subsystem in one line: how many active jobs it has, and may have.
#[derive(Clone, Copy)]
pub struct SbsLine {
    pub sbs: QName,
    pub count: u32,
    pub maxjobs: Limit,
    pub ending: bool,
}

pub type SbsLines = ListOf<SbsLine>;

/// A queue with the jobs that wait on it.
#[derive(Drop)]
pub struct QueueShown {
    pub jobq: QName,
    pub held: bool,
    pub jobs: JobLines,
}

/// A job with its queue.
#[derive(Clone, Copy)]
pub struct JobShown {
    pub line: JobLine,
    pub jobq: Option<QName>,
}

/// What a reading command is answered.
#[derive(Drop)]
pub enum Shown {
    Active(ActiveLines),
    Queue(QueueShown),
    Submitted(JobLines),
    Subsystems(SbsLines),
    Job(JobShown),
    /// The command asks for what is no view of the state.
    NoView,
    No(Refusal),
}
