// Why the machine refuses a call.
ghost use Rattle.std.specs.Prelude.{◌≡◌, Some};

use std::fmt;

/// A kind of object or of entry.
#[derive(Clone, Copy, Debug)]
pub enum Kind {
    Cls,
    Jobq,
    Jobd,
    Pgm,
    Sbsd,
    Jobqe,
    Rtge,
    Aje,
    Pje,
    Sbs,
}

impl Kind {
    ghost use Rattle.wm_base.specs.Kind.{kind_word};

    /// The word of the kind.
    pub fn word(self) -> &'static str
        ensures { result.now ≡ kind_word self }
    {
        match self {
            Kind::Cls => "CLS",
            Kind::Jobq => "JOBQ",
            Kind::Jobd => "JOBD",
            Kind::Pgm => "PGM",
            Kind::Sbsd => "SBSD",
            Kind::Jobqe => "JOBQE",
            Kind::Rtge => "RTGE",
            Kind::Aje => "AJE",
            Kind::Pje => "PJE",
            Kind::Sbs => "SBS",
        }
    }
}

impl fmt::Display for Kind {
    ghost use Rattle.wm_base.specs.Kind.{kind_word};

    ghost output = { λ k. Some (kind_word k) };

    fn fmt<W: fmt::Write>(&self, f: &mut fmt::Formatter<W>) -> fmt::Result {
        f.write_str(self.word())
    }
}

/// What a job's phase is called in a refusal. `Active` is a job that a monitor has.
#[derive(Clone, Copy, Debug)]
pub enum PhaseWord {
    Waiting,
    Starting,
    Active,
    Ended,
}

impl PhaseWord {
    ghost use Rattle.wm_base.specs.PhaseWord.{phase_word};

    /// The word of the phase.
    pub fn word(self) -> &'static str
        ensures { result.now ≡ phase_word self }
    {
        match self {
            PhaseWord::Waiting => "WAITING",
            PhaseWord::Starting => "STARTING",
            PhaseWord::Active => "ACTIVE",
            PhaseWord::Ended => "ENDED",
        }
    }
}

impl fmt::Display for PhaseWord {
    ghost use Rattle.wm_base.specs.PhaseWord.{phase_word};

    ghost output = { λ p. Some (phase_word p) };

    fn fmt<W: fmt::Write>(&self, f: &mut fmt::Formatter<W>) -> fmt::Result {
        f.write_str(self.word())
    }
}

/// A keyword of a command.
#[derive(Clone, Copy, Debug, PartialEq)]
pub enum Key {
    Cls,
    Runpty,
    Timeslice,
    Dftwait,
    Jobq,
    Pgm,
    Path,
    Jobd,
    Jobpty,
    Rtgdta,
    Rqsdta,
    Hold,
    Sbsd,
    Maxjobs,
    Maxact,
    Seqnbr,
    Maxpty1,
    Maxpty2,
    Maxpty3,
    Maxpty4,
    Maxpty5,
    Maxpty6,
    Maxpty7,
    Maxpty8,
    Maxpty9,
    Cmpval,
    Poolid,
    Job,
    Strjobs,
    Inljobs,
    Threshold,
    Adljobs,
    Maxuse,
    Wait,
    Sbs,
    Option,
    Delay,
    Cmd,
    Scddate,
    Scdtime,
    Text,
    Pools,
}

impl Key {
    ghost use Rattle.wm_base.specs.Key.{key_word};

    /// The keyword in capitals.
    pub fn word(self) -> &'static str
        ensures { result.now ≡ key_word self }
    {
        match self {
            Key::Cls => "CLS",
            Key::Runpty => "RUNPTY",
            Key::Timeslice => "TIMESLICE",
            Key::Dftwait => "DFTWAIT",
            Key::Jobq => "JOBQ",
            Key::Pgm => "PGM",
            Key::Path => "PATH",
            Key::Jobd => "JOBD",
            Key::Jobpty => "JOBPTY",
            Key::Rtgdta => "RTGDTA",
            Key::Rqsdta => "RQSDTA",
            Key::Hold => "HOLD",
            Key::Sbsd => "SBSD",
            Key::Maxjobs => "MAXJOBS",
            Key::Maxact => "MAXACT",
            Key::Seqnbr => "SEQNBR",
            Key::Maxpty1 => "MAXPTY1",
            Key::Maxpty2 => "MAXPTY2",
            Key::Maxpty3 => "MAXPTY3",
            Key::Maxpty4 => "MAXPTY4",
            Key::Maxpty5 => "MAXPTY5",
            Key::Maxpty6 => "MAXPTY6",
            Key::Maxpty7 => "MAXPTY7",
            Key::Maxpty8 => "MAXPTY8",
            Key::Maxpty9 => "MAXPTY9",
            Key::Cmpval => "CMPVAL",
            Key::Poolid => "POOLID",
            Key::Job => "JOB",
            Key::Strjobs => "STRJOBS",
            Key::Inljobs => "INLJOBS",
            Key::Threshold => "THRESHOLD",
            Key::Adljobs => "ADLJOBS",
            Key::Maxuse => "MAXUSE",
            Key::Wait => "WAIT",
            Key::Sbs => "SBS",
            Key::Option => "OPTION",
            Key::Delay => "DELAY",
            Key::Cmd => "CMD",
            Key::Scddate => "SCDDATE",
            Key::Scdtime => "SCDTIME",
            Key::Text => "TEXT",
            Key::Pools => "POOLS",
        }
    }
}

impl fmt::Display for Key {
    ghost use Rattle.wm_base.specs.Key.{key_word};

    ghost output = { λ k. Some (key_word k) };

    fn fmt<W: fmt::Write>(&self, f: &mut fmt::Formatter<W>) -> fmt::Result {
        f.write_str(self.word())
    }
}

/// Why a call was refused. Its number and its line are this project's own.
#[derive(Clone, Copy, Debug)]
pub enum Refusal {
    Exists(Kind),
    NoObject(Kind),
    SeqUsed,
    AnyNotLast,
    SbsActive,
    SbsNotActive,
    AlreadyActive,
    AlreadyEnding,
    NoJob,
    WrongPhase(PhaseWord),
    Past,
    NumbersUsed,
    TableFull(Kind, u32),
    BadRelation(Key, Key),
    EntryStopped,
    NoneAvailable,
    PoweringDown,
    Ambiguous(u32),
    HeldAlready,
    WaitListFull(u32),
    NotHeld,
    OutOfRange,
    NotInUse,
}

impl Refusal {
    ghost use Rattle.wm_base.specs.Refusal.{refusal_number, refusal_word};

    /// The refusal's number, 1 to 23.
    pub fn number(&self) -> u8
        ensures { result ≡ refusal_number self.now }
    {
        match self {
            Refusal::Exists(_) => 1,
            Refusal::NoObject(_) => 2,
            Refusal::SeqUsed => 3,
            Refusal::AnyNotLast => 4,
            Refusal::SbsActive => 5,
            Refusal::SbsNotActive => 6,
            Refusal::AlreadyActive => 7,
            Refusal::AlreadyEnding => 8,
            Refusal::NoJob => 9,
            Refusal::WrongPhase(_) => 10,
            Refusal::Past => 11,
            Refusal::NumbersUsed => 12,
            Refusal::TableFull(..) => 13,
            Refusal::BadRelation(..) => 14,
            Refusal::EntryStopped => 15,
            Refusal::NoneAvailable => 16,
            Refusal::PoweringDown => 17,
            Refusal::Ambiguous(_) => 18,
            Refusal::HeldAlready => 19,
            Refusal::WaitListFull(_) => 20,
            Refusal::NotHeld => 21,
            Refusal::OutOfRange => 22,
            Refusal::NotInUse => 23,
        }
    }

    fn word(&self) -> &'static str
        ensures { result.now ≡ refusal_word self.now }
    {
        match self {
            Refusal::Exists(_) => "EXISTS",
            Refusal::NoObject(_) => "NOOBJECT",
            Refusal::SeqUsed => "SEQUSED",
            Refusal::AnyNotLast => "ANYNOTLAST",
            Refusal::SbsActive => "SBSACTIVE",
            Refusal::SbsNotActive => "SBSNOTACTIVE",
            Refusal::AlreadyActive => "ALREADYACTIVE",
            Refusal::AlreadyEnding => "ALREADYENDING",
            Refusal::NoJob => "NOJOB",
            Refusal::WrongPhase(_) => "WRONGPHASE",
            Refusal::Past => "PAST",
            Refusal::NumbersUsed => "NUMBERSUSED",
            Refusal::TableFull(..) => "TABLEFULL",
            Refusal::BadRelation(..) => "BADRELATION",
            Refusal::EntryStopped => "ENTRYSTOPPED",
            Refusal::NoneAvailable => "NONEAVAILABLE",
            Refusal::PoweringDown => "POWERINGDOWN",
            Refusal::Ambiguous(_) => "AMBIGUOUS",
            Refusal::HeldAlready => "HELDALREADY",
            Refusal::WaitListFull(_) => "WAITLISTFULL",
            Refusal::NotHeld => "NOTHELD",
            Refusal::OutOfRange => "OUTOFRANGE",
            Refusal::NotInUse => "NOTINUSE",
        }
    }
}

// The values behind a refusal's word.
#[derive(Clone, Copy)]
struct RefusalValues<'a>(&'a Refusal);

impl fmt::Display for RefusalValues<'_> {
    ghost use Rattle.wm_base.specs.Refusal.{refusal_values};

    ghost output = { λ values. Some (refusal_values values.0.now) };

    fn fmt<W: fmt::Write>(&self, f: &mut fmt::Formatter<W>) -> fmt::Result {
        match self.0 {
            Refusal::Exists(kind) | Refusal::NoObject(kind) => write!(f, " {kind}"),
            Refusal::WrongPhase(phase) => write!(f, " {phase}"),
            Refusal::TableFull(kind, most) => write!(f, " {kind} {most}"),
            Refusal::BadRelation(key, other) => write!(f, " {key} {other}"),
            Refusal::Ambiguous(number) | Refusal::WaitListFull(number) => write!(f, " {number}"),
            _ => Ok(()),
        }
    }
}

impl fmt::Display for Refusal {
    ghost use Rattle.wm_base.specs.Refusal.{refusal_text};

    ghost output = { λ refusal. Some (refusal_text refusal) };

    #[tactic(auto, using(crate::proofs::Numbers::padded))]
    fn fmt<W: fmt::Write>(&self, f: &mut fmt::Formatter<W>) -> fmt::Result {
        write!(
            f,
            "{:02} {}{}",
            self.number(),
            self.word(),
            RefusalValues(self)
        )
    }
}
