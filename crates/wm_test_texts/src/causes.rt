// The numbers and words of ends and refusals, and the words of what they speak of.
use anyhow::Result;
use wm_base::{EndCause, Exit, Key, Kind, PhaseWord, Refusal, StartCause};

/// An exit with this code, or one by a signal where there is none.
pub fn exit(code: &str, answer: &mut String) -> Result<()> {
    let exit = if code.is_empty() {
        Exit::Killed
    } else {
        Exit::Code(code.parse::<u8>()?)
    };
    writeln!(answer, "{exit}")?;
    Ok(())
}

/// Why a job may end: the number and the line of each cause.
pub fn causes(answer: &mut String) -> Result<()> {
    for cause in [
        EndCause::Completed,
        EndCause::Exited(7),
        EndCause::Killed,
        EndCause::Endjob,
        EndCause::Endsbs,
        EndCause::Endpj,
        EndCause::Maxuse,
        EndCause::NoRoute,
        EndCause::RouteFull(10),
        EndCause::BadRequest,
        EndCause::NoProgram,
        EndCause::StartFailed(StartCause::Spawner),
        EndCause::StartFailed(StartCause::Memory),
        EndCause::Cleared,
        EndCause::EndedOnQueue,
        EndCause::Restarted,
    ] {
        writeln!(answer, "{} {cause}", cause.number())?;
    }
    Ok(())
}

/// Why a call may be refused: the number and the line of each refusal.
pub fn refusals(answer: &mut String) -> Result<()> {
    for refusal in [
        Refusal::Exists(Kind::Sbsd),
        Refusal::NoObject(Kind::Jobq),
        Refusal::SeqUsed,
        Refusal::AnyNotLast,
        Refusal::SbsActive,
        Refusal::SbsNotActive,
        Refusal::AlreadyActive,
        Refusal::AlreadyEnding,
        Refusal::NoJob,
        Refusal::WrongPhase(PhaseWord::Ended),
        Refusal::Past,
        Refusal::NumbersUsed,
        Refusal::TableFull(Kind::Sbs, 32),
        Refusal::BadRelation(Key::Threshold, Key::Inljobs),
        Refusal::EntryStopped,
        Refusal::NoneAvailable,
        Refusal::PoweringDown,
        Refusal::Ambiguous(2),
        Refusal::HeldAlready,
        Refusal::WaitListFull(100),
        Refusal::NotHeld,
        Refusal::OutOfRange,
        Refusal::NotInUse,
    ] {
        writeln!(answer, "{} {refusal}", refusal.number())?;
    }
    Ok(())
}

/// The kinds of objects and entries.
pub fn kinds(answer: &mut String) -> Result<()> {
    for kind in [
        Kind::Cls,
        Kind::Jobq,
        Kind::Jobd,
        Kind::Pgm,
        Kind::Sbsd,
        Kind::Jobqe,
        Kind::Rtge,
        Kind::Aje,
        Kind::Pje,
        Kind::Sbs,
    ] {
        writeln!(answer, "{kind}")?;
    }
    Ok(())
}

/// What a refusal calls a job's phase.
pub fn phases(answer: &mut String) -> Result<()> {
    for phase in [
        PhaseWord::Waiting,
        PhaseWord::Starting,
        PhaseWord::Active,
        PhaseWord::Ended,
    ] {
        writeln!(answer, "{phase}")?;
    }
    Ok(())
}

/// Some of the keys. All of them stand in the command table.
pub fn keywords(answer: &mut String) -> Result<()> {
    for key in [
        Key::Runpty,
        Key::Maxpty1,
        Key::Maxpty9,
        Key::Scddate,
        Key::Pools,
    ] {
        writeln!(answer, "{key}")?;
    }
    Ok(())
}
