// Subsystems end, and the requests that wait there or for a prestart entry go.
ghost use Rattle.std.specs.Prelude.{◌≡◌, not, map, filter};
ghost use Rattle.wm_law.specs.Endings.{end_phase, is_of_those, phased};
ghost use Rattle.wm_law.specs.Prestart.{is_evoke_of};
ghost use Rattle.wm_subsystems.specs.Telling.{passes};

use crate::meant::Those;
use crate::one_job::moment_after;
use crate::told::passes;
use wm_base::{Moment, QName};
use wm_law::{EndOption, Evoke, Evokes, Sbs, SbsList, SbsPhase};

/// The phase of a subsystem that an option ends.
pub fn end_phase(clock: Moment, option: EndOption, delay: Option<u32>) -> SbsPhase
    ensures { result ≡ end_phase clock option delay }
{
    match (option, delay) {
        (EndOption::Cntrld, None) => SbsPhase::Ending(None),
        (EndOption::Cntrld, Some(delay)) => SbsPhase::Ending(Some(moment_after(clock, delay))),
        (EndOption::Immed, _) => SbsPhase::Now,
    }
}

// One of those subsystems comes into the phase.
fn end_one(sbs: &mut Sbs, those: &Those, phase: &SbsPhase)
    ensures { sbs.new ≡ phased (passes those.now) phase.now sbs.old }
{
    if passes(those, sbs) {
        sbs.phase = *phase;
    }
}

fn end_each(started: &mut [Sbs], those: &Those, phase: &SbsPhase)
    ensures { started.new ≡ map (phased (passes those.now) phase.now) started.old }
{
    for sbs in started.iter_mut() {
        end_one(sbs, those, phase);
    }
}

/// Those subsystems come into the phase.
pub fn end_sbss(started: &mut SbsList, those: &Those, phase: &SbsPhase)
    ensures { started.new ≡ map (phased (passes those.now) phase.now) started.old }
{
    end_each(&mut started.items, those, phase);
}

// Whether one of those subsystems has the name.
fn is_of_those(those: &Those, started: &SbsList, name: &QName) -> bool
    ensures { result ≡ is_of_those (passes those.now) started.now name.now }
{
    started
        .as_slice()
        .iter()
        .any(|sbs| passes(those, sbs) && sbs.sbsd == *name)
}

fn drop_each(evokes: &mut Vec<Evoke>, those: &Those, started: &SbsList)
    ensures { evokes.new.items ≡ filter (λ e. not (is_of_those (passes those.now) started.now e.sbs)) evokes.old.items }
{
    evokes.retain(|evoke| !is_of_those(those, started, &evoke.sbs));
}

/// The requests that wait in those subsystems go.
pub fn drop_evokes(evokes: &mut Evokes, those: &Those, started: &SbsList)
    ensures { evokes.new ≡ filter (λ e. not (is_of_those (passes those.now) started.now e.sbs)) evokes.old }
{
    drop_each(&mut evokes.items, those, started);
}

/// Whether a request is one for the prestart entry.
pub fn is_evoke_of(sbs: &QName, pgm: &QName, evoke: &Evoke) -> bool
    ensures { result ≡ is_evoke_of sbs.now pgm.now evoke.now }
{
    evoke.sbs == *sbs && evoke.pgm == *pgm
}

fn drop_each_of(evokes: &mut Vec<Evoke>, sbs: &QName, pgm: &QName)
    ensures { evokes.new.items ≡ filter (λ e. not (is_evoke_of sbs.now pgm.now e)) evokes.old.items }
{
    evokes.retain(|evoke| !is_evoke_of(sbs, pgm, evoke));
}

/// The requests that wait for the prestart entry go.
pub fn drop_entry_evokes(evokes: &mut Evokes, sbs: &QName, pgm: &QName)
    ensures { evokes.new ≡ filter (λ e. not (is_evoke_of sbs.now pgm.now e)) evokes.old }
{
    drop_each_of(&mut evokes.items, sbs, pgm);
}
