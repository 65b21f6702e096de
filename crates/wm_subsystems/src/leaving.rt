// Ending subsystems with no active job leave.
ghost use Rattle.std.specs.Prelude.{◌≡◌, not, filter};
ghost use Rattle.wm_subsystems.specs.Gone.{is_any_gone, is_gone_by};

use crate::gone_sbs::gone;
use wm_base::QName;
use wm_law::{Evoke, Evokes, Sbs, SbsList, Stop, Stops};
use wm_pick::Tally;

// Whether a subsystem of the name is gone.
fn is_any_gone(started: &SbsList, tally: &Tally, name: &QName) -> bool
    ensures { result ≡ is_any_gone tally.now started.now name.now }
{
    started
        .as_slice()
        .iter()
        .any(|sbs| gone(sbs, tally) && sbs.sbsd == *name)
}

fn drop_each_stopped(stopped: &mut Vec<Stop>, started: &SbsList, tally: &Tally)
    ensures { stopped.new.items ≡ filter (λ e. not (is_any_gone tally.now started.now e.sbs)) stopped.old.items }
{
    stopped.retain(|stop| !is_any_gone(started, tally, &stop.sbs));
}

fn drop_each_evoke(evokes: &mut Vec<Evoke>, started: &SbsList, tally: &Tally)
    ensures { evokes.new.items ≡ filter (λ e. not (is_any_gone tally.now started.now e.sbs)) evokes.old.items }
{
    evokes.retain(|evoke| !is_any_gone(started, tally, &evoke.sbs));
}

fn drop_each_gone(started: &mut Vec<Sbs>, tally: &Tally)
    ensures { started.new.items ≡ filter (λ b. not (is_gone_by tally.now b)) started.old.items }
{
    started.retain(|sbs| !gone(sbs, tally));
}

/// The stopped entries of gone subsystems go.
pub fn drop_gone_stops(stopped: &mut Stops, started: &SbsList, tally: &Tally)
    ensures { stopped.new ≡ filter (λ e. not (is_any_gone tally.now started.now e.sbs)) stopped.old }
{
    drop_each_stopped(&mut stopped.items, started, tally);
}

/// The requests that wait in gone subsystems go.
pub fn drop_gone_evokes(evokes: &mut Evokes, started: &SbsList, tally: &Tally)
    ensures { evokes.new ≡ filter (λ e. not (is_any_gone tally.now started.now e.sbs)) evokes.old }
{
    drop_each_evoke(&mut evokes.items, started, tally);
}

/// Gone subsystems go.
pub fn drop_gone(started: &mut SbsList, tally: &Tally)
    ensures { started.new ≡ filter (λ b. not (is_gone_by tally.now b)) started.old }
{
    drop_each_gone(&mut started.items, tally);
}
