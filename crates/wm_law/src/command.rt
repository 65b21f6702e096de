// The commands with their values after defaults, and what a session asks. A field has the name of its key; `None` is the
// special word of the key.
use wm_base::{JobName, Limit, Name, Priority, QName, Text};
use wm_desc::Cmp;
use wm_when::{DateSpec, TimeSpec};

/// How fast something ends.
#[derive(Clone, Copy, Debug)]
pub enum EndOption {
    Cntrld,
    Immed,
}

/// How a command names a job.
#[derive(Clone, Copy, Debug)]
pub enum JobRef {
    Simple(Name),
    /// The user, and the job's name.
    ByUser(Name, Name),
    Full(JobName),
}

#[derive(Debug, Drop)]
pub struct Crtcls {
    pub cls: QName,
    pub runpty: u32,
    pub timeslice: u32,
    pub dftwait: Limit,
}

#[derive(Debug, Drop)]
pub struct Crtjobq {
    pub jobq: QName,
}

#[derive(Debug, Drop)]
pub struct Crtpgmref {
    pub pgm: QName,
    pub path: Text,
}

#[derive(Debug, Drop)]
pub struct Crtjobd {
    pub jobd: QName,
    pub jobq: QName,
    pub jobpty: Priority,
    pub rtgdta: Text,
    pub rqsdta: Option<Text>,
    pub hold: bool,
}

#[derive(Debug, Drop)]
pub struct Crtsbsd {
    pub sbsd: QName,
    pub maxjobs: Limit,
}

#[derive(Debug, Drop)]
pub struct Addjobqe {
    pub sbsd: QName,
    pub jobq: QName,
    pub maxact: Limit,
    pub seqnbr: u32,
    /// MAXPTY1 to MAXPTY9.
    pub maxpty: [Limit; 9],
}

#[derive(Debug, Drop)]
pub struct Addrtge {
    pub sbsd: QName,
    pub seqnbr: u32,
    pub cmpval: Cmp,
    pub pgm: QName,
    pub cls: QName,
    pub maxact: Limit,
    pub poolid: u32,
}

#[derive(Debug, Drop)]
pub struct Addaje {
    pub sbsd: QName,
    pub job: Name,
    pub jobd: QName,
}

#[derive(Debug, Drop)]
pub struct Addpje {
    pub sbsd: QName,
    pub pgm: QName,
    pub strjobs: bool,
    pub inljobs: u32,
    pub threshold: u32,
    pub adljobs: u32,
    pub maxjobs: Limit,
    pub maxuse: Limit,
    pub wait: bool,
    pub cls: QName,
    pub poolid: u32,
}

#[derive(Debug, Drop)]
pub struct Rmvjobqe {
    pub sbsd: QName,
    pub jobq: QName,
}

#[derive(Debug, Drop)]
pub struct Rmvrtge {
    pub sbsd: QName,
    pub seqnbr: u32,
}

#[derive(Debug, Drop)]
pub struct Rmvaje {
    pub sbsd: QName,
    pub job: Name,
}

#[derive(Debug, Drop)]
pub struct Rmvpje {
    pub sbsd: QName,
    pub pgm: QName,
}

#[derive(Debug, Drop)]
pub struct Strsbs {
    pub sbsd: QName,
}

/// The delay is in seconds, `None` is *NOLIMIT.
#[derive(Debug, Drop)]
pub struct Endsbs {
    pub sbs: Name,
    pub option: EndOption,
    pub delay: Option<u32>,
}

/// `None` is *JOBD: the value of the job description, and for `job` its simple name. CMD's text is `rqsdta`.
#[derive(Debug, Drop)]
pub struct Sbmjob {
    pub rqsdta: Option<Text>,
    pub job: Option<Name>,
    pub jobd: QName,
    pub jobq: Option<QName>,
    pub jobpty: Option<Priority>,
    pub rtgdta: Option<Text>,
    pub hold: Option<bool>,
    pub scddate: DateSpec,
    pub scdtime: TimeSpec,
}

#[derive(Debug, Drop)]
pub struct Hldjob {
    pub job: JobRef,
}

#[derive(Debug, Drop)]
pub struct Rlsjob {
    pub job: JobRef,
}

/// `None` is *SAME.
#[derive(Debug, Drop)]
pub struct Chgjob {
    pub job: JobRef,
    pub jobpty: Option<Priority>,
    pub jobq: Option<QName>,
    pub scddate: Option<DateSpec>,
    pub scdtime: Option<TimeSpec>,
}

/// The delay is in seconds.
#[derive(Debug, Drop)]
pub struct Endjob {
    pub job: JobRef,
    pub option: EndOption,
    pub delay: u32,
}

#[derive(Debug, Drop)]
pub struct Hldjobq {
    pub jobq: QName,
}

#[derive(Debug, Drop)]
pub struct Rlsjobq {
    pub jobq: QName,
}

#[derive(Debug, Drop)]
pub struct Clrjobq {
    pub jobq: QName,
}

#[derive(Debug, Drop)]
pub struct Strpj {
    pub sbs: Name,
    pub pgm: QName,
}

/// The delay is in seconds, `None` is *NOLIMIT.
#[derive(Debug, Drop)]
pub struct Endpj {
    pub sbs: Name,
    pub pgm: QName,
    pub option: EndOption,
    pub delay: Option<u32>,
}

/// EVOKE. `Evoke` is the request that waits.
#[derive(Debug, Drop)]
pub struct EvokeCommand {
    pub sbs: Name,
    pub pgm: QName,
}

#[derive(Debug, Drop)]
pub struct Enduse {
    pub job: JobRef,
}

/// The delay is in seconds, `None` is *NOLIMIT.
#[derive(Debug, Drop)]
pub struct Pwrdwnsys {
    pub option: EndOption,
    pub delay: Option<u32>,
}

/// A command that changes the state.
#[derive(Debug, Drop)]
pub enum Command {
    Crtcls(Crtcls),
    Crtjobq(Crtjobq),
    Crtpgmref(Crtpgmref),
    Crtjobd(Crtjobd),
    Crtsbsd(Crtsbsd),
    Addjobqe(Addjobqe),
    Addrtge(Addrtge),
    Addaje(Addaje),
    Addpje(Addpje),
    Rmvjobqe(Rmvjobqe),
    Rmvrtge(Rmvrtge),
    Rmvaje(Rmvaje),
    Rmvpje(Rmvpje),
    Strsbs(Strsbs),
    Endsbs(Endsbs),
    Sbmjob(Sbmjob),
    Hldjob(Hldjob),
    Rlsjob(Rlsjob),
    Chgjob(Chgjob),
    Endjob(Endjob),
    Hldjobq(Hldjobq),
    Rlsjobq(Rlsjobq),
    Clrjobq(Clrjobq),
    Strpj(Strpj),
    Endpj(Endpj),
    Evoke(EvokeCommand),
    Enduse(Enduse),
    Pwrdwnsys(Pwrdwnsys),
}

/// What a reading command or a monitor asks.
#[derive(Clone, Copy, Debug)]
pub enum Ask {
    Active,
    Queue(QName),
    /// The jobs of a user.
    Submitted(Name),
    Subsystems,
    Job(JobRef),
    Log,
    /// What waits for a monitor with this pass.
    Pending(u32),
}
