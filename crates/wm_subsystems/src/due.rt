// Which calls tell to end, and what the clock ends of the started subsystems.
ghost use Rattle.std.specs.Prelude.{◌≡◌, map};
ghost use Rattle.wm_law.specs.CallKinds.{is_ending_call, tells_to_end};
ghost use Rattle.wm_law.specs.Settling.{sbs_at, sbs_phase_at};

use crate::deadlines::has_come;
use wm_base::Moment;
use wm_law::{Call, Command, Sbs, SbsList, SbsPhase};

fn tells_to_end(command: &Command) -> bool
    ensures { result ≡ tells_to_end command.now }
{
    matches!(
        command,
        Command::Endsbs(_) | Command::Endjob(_) | Command::Endpj(_) | Command::Pwrdwnsys(_)
    )
}

/// Whether a call tells jobs or subsystems to end.
pub fn is_ending_call(call: &Call) -> bool
    ensures { result ≡ is_ending_call call.now }
{
    match call {
        Call::Change { command, .. } => tells_to_end(command.get()),
        _ => false,
    }
}

fn phase_at(clock: Moment, phase: &SbsPhase) -> SbsPhase
    ensures { result ≡ sbs_phase_at clock phase.now }
{
    match phase {
        SbsPhase::Ending(until) if has_come(clock, *until) => SbsPhase::Now,
        _ => *phase,
    }
}

fn look_at(sbs: &mut Sbs, clock: Moment)
    ensures { sbs.new ≡ sbs_at clock sbs.old }
{
    sbs.phase = phase_at(clock, &sbs.phase);
}

fn look_at_each(started: &mut [Sbs], clock: Moment)
    ensures { started.new ≡ map (sbs_at clock) started.old }
{
    for sbs in started.iter_mut() {
        look_at(sbs, clock);
    }
}

/// The subsystems are looked at by the clock.
pub fn look_at_all(started: &mut SbsList, clock: Moment)
    ensures { started.new ≡ map (sbs_at clock) started.old }
{
    look_at_each(&mut started.items, clock);
}
