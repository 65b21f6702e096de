// Jobs.
use wm_base::{EndCause, How, JobName, Moment, Priority, QName, Serial, Text};
use wm_clwords::Request;

/// How a job came to be: submitted (BCH), autostart (ASJ) or prestart (PJ).
#[derive(Clone, Copy)]
pub enum JobKind {
    Bch,
    Asj,
    Pj,
}

/// Where a job is. It goes forward only: Waiting, Starting, Handed, Running, Ended.
/// The number is the pass of the monitor that has the job.
#[derive(Clone, Copy, Debug)]
pub enum Phase {
    Waiting,
    Starting,
    Handed(u32),
    Running(u32),
    Ended(EndCause),
}

/// On whose account a job is to end.
#[derive(Clone, Copy)]
pub enum Why {
    Endjob,
    Endsbs,
    Endpj,
    Maxuse,
}

/// Whether an active job is to end: not, at some moment, or now.
#[derive(Clone, Copy)]
pub enum Wish {
    NoWish,
    Later { until: Option<Moment>, why: Why },
    Now { why: Why, handed: bool },
}

/// A job. `place` orders the jobs of one queue and priority, `due` is the moment from which it may start.
#[derive(Drop)]
pub struct Job {
    pub serial: Serial,
    pub job: JobName,
    pub kind: JobKind,
    pub jobq: Option<QName>,
    pub pty: Priority,
    pub place: u64,
    pub rtgdta: Text,
    pub rqsdta: Option<Request>,
    pub held: bool,
    pub due: Moment,
    pub phase: Phase,
    pub how: How,
    pub wish: Wish,
    pub uses: u32,
    pub evoke: bool,
}
