// A job's name and class, what a monitor is asked to do, and what it reports.
ghost use Rattle.std.specs.Prelude.{◌≡◌, Some};

use crate::{Args, JobNumber, Limit, Name, Priority, QName, Serial, Text};
use std::fmt;

/// A job's full name, printed as `000001/QUSER/A`.
#[derive(Clone, Copy, Debug, PartialEq, Eq, PartialOrd, Ord)]
pub struct JobName {
    pub number: JobNumber,
    pub user: Name,
    pub name: Name,
}

impl fmt::Display for JobName {
    ghost use Rattle.wm_base.specs.JobName.{job_name_text};

    ghost output = { λ job. Some (job_name_text job) };

    fn fmt<W: fmt::Write>(&self, f: &mut fmt::Formatter<W>) -> fmt::Result {
        write!(f, "{}/{}/{}", self.number, self.user, self.name)
    }
}

/// A class: the run priority, the time slice in milliseconds and the default wait in seconds.
/// They are handed to the job and not enforced.
#[derive(Clone, Copy)]
pub struct Class {
    pub runpty: u32,
    pub timeslice: u32,
    pub dftwait: Limit,
}

/// What to start for a job: the program's path, its arguments as they are, and the class.
/// `pre` tells a prestart job.
#[derive(Clone, Drop)]
pub struct StartOrder {
    pub serial: Serial,
    pub job: JobName,
    pub path: Text,
    pub args: Args,
    pub cls: Class,
    pub pre: bool,
}

/// What a spawner is asked.
#[derive(Clone, Drop)]
pub enum Asked {
    Start(StartOrder),
    Kill(Serial),
}

/// How a child ended: with an exit code, or by a signal.
#[derive(Clone, Copy)]
pub enum Exit {
    Code(u8),
    Killed,
}

impl fmt::Display for Exit {
    ghost use Rattle.wm_base.specs.Exit.{exit_text};

    ghost output = { λ exit. Some (exit_text exit) };

    fn fmt<W: fmt::Write>(&self, f: &mut fmt::Formatter<W>) -> fmt::Result {
        match self {
            Exit::Code(code) => write!(f, "CODE {code}"),
            Exit::Killed => f.write_str("KILLED"),
        }
    }
}

/// What a spawner reports: a child's end, or that a prestart job is done with its request.
#[derive(Clone, Copy)]
pub enum Event {
    Ended(Serial, Exit),
    Used(Serial),
}

/// Why a start failed: the spawner couldn't, or memory was wanting.
#[derive(Clone, Copy, Debug, PartialEq)]
pub enum StartCause {
    Spawner,
    Memory,
}

impl fmt::Display for StartCause {
    ghost use Rattle.wm_base.specs.StartCause.{start_cause_word};

    ghost output = { λ cause. Some (start_cause_word cause) };

    fn fmt<W: fmt::Write>(&self, f: &mut fmt::Formatter<W>) -> fmt::Result {
        f.write_str(match self {
            StartCause::Spawner => "SPAWNER",
            StartCause::Memory => "MEMORY",
        })
    }
}

/// What an active job counts against: how it came into its subsystem.
#[derive(Clone, Copy)]
pub enum How {
    NotYet,
    FromQueue {
        sbs: QName,
        jobq: QName,
        pty: Priority,
        route: u32,
    },
    Auto {
        sbs: QName,
        route: u32,
    },
    Pre {
        sbs: QName,
        pgm: QName,
    },
}

/// Why a job ended. The number of each cause stands in `number`, the word in its printing.
#[derive(Clone, Copy, Debug, PartialEq)]
pub enum EndCause {
    Completed,
    Exited(u8),
    Killed,
    Endjob,
    Endsbs,
    Endpj,
    Maxuse,
    NoRoute,
    RouteFull(u32),
    BadRequest,
    NoProgram,
    StartFailed(StartCause),
    Cleared,
    EndedOnQueue,
    Restarted,
}

impl EndCause {
    ghost use Rattle.wm_base.specs.EndCause.{end_cause_number, end_cause_word};

    /// The cause's number, 1 to 16. A failed start has a number for each of its two causes.
    pub fn number(&self) -> u8
        ensures { result ≡ end_cause_number self.now }
    {
        match self {
            EndCause::Completed => 1,
            EndCause::Exited(_) => 2,
            EndCause::Killed => 3,
            EndCause::Endjob => 4,
            EndCause::Endsbs => 5,
            EndCause::Endpj => 6,
            EndCause::Maxuse => 7,
            EndCause::NoRoute => 8,
            EndCause::RouteFull(_) => 9,
            EndCause::BadRequest => 10,
            EndCause::NoProgram => 11,
            EndCause::StartFailed(StartCause::Spawner) => 12,
            EndCause::StartFailed(StartCause::Memory) => 13,
            EndCause::Cleared => 14,
            EndCause::EndedOnQueue => 15,
            EndCause::Restarted => 16,
        }
    }

    fn word(&self) -> &'static str
        ensures { result.now ≡ end_cause_word self.now }
    {
        match self {
            EndCause::Completed => "COMPLETED",
            EndCause::Exited(_) => "EXITED",
            EndCause::Killed => "KILLED",
            EndCause::Endjob => "ENDJOB",
            EndCause::Endsbs => "ENDSBS",
            EndCause::Endpj => "ENDPJ",
            EndCause::Maxuse => "MAXUSE",
            EndCause::NoRoute => "NOROUTE",
            EndCause::RouteFull(_) => "ROUTEFULL",
            EndCause::BadRequest => "BADREQUEST",
            EndCause::NoProgram => "NOPROGRAM",
            EndCause::StartFailed(_) => "STARTFAILED",
            EndCause::Cleared => "CLEARED",
            EndCause::EndedOnQueue => "ENDEDONQUEUE",
            EndCause::Restarted => "RESTARTED",
        }
    }
}

impl fmt::Display for EndCause {
    ghost use Rattle.wm_base.specs.EndCause.{end_cause_text};

    ghost output = { λ cause. Some (end_cause_text cause) };

    fn fmt<W: fmt::Write>(&self, f: &mut fmt::Formatter<W>) -> fmt::Result {
        f.write_str(self.word())?;
        match self {
            EndCause::Exited(code) => write!(f, " {code}"),
            EndCause::RouteFull(seq) => write!(f, " {seq}"),
            EndCause::StartFailed(cause) => write!(f, " {cause}"),
            _ => Ok(()),
        }
    }
}
