// What is asked of a spawner: to start, to kill, and to tell.
ghost use Rattle.std.specs.Prelude.{◌≡◌, ◌∷◌, [], None, Ok, map, count_by};
ghost use Rattle.wm_base.specs.declared.job.Asked.TheVariants.{Start, Kill};
ghost use Rattle.wm_traits.specs.Told.{Grows, IsEmpty};
ghost use Rattle.wm_traits.specs.Cause.{HasCause};
ghost use Rattle.wm_floor.specs.Monitor.{RisesBy, as_reports, call_of, is_spawner_fault, looked};

use crate::report::Report;
use std::sync::Wait;
use wm_base::{Moment, Serial, StartOrder};
use wm_traits::{Failed, Spawner};

/// Asks the spawner to start what was ordered.
pub(crate) fn start<P: Spawner>(spawner: &mut P, order: &StartOrder) -> Report
    ensures asked { Grows (P.asked spawner.old) (P.asked spawner.new) (Start order.now ∷ []) }
    ensures told { Grows (as_reports (P.told spawner.old)) (as_reports (P.told spawner.new)) (call_of result ∷ []) }
    ensures misses { RisesBy (P.misses spawner.old) (count_by is_spawner_fault (call_of result ∷ [])) (P.misses spawner.new) }
    ensures faults { P.faults spawner.new ≡ P.faults spawner.old }
{
    match spawner.start(order) {
        Ok(()) => Report::Started(order.serial),
        Err(fault) => Report::of_fault(order.serial, fault),
    }
}

/// Asks the spawner to kill a job. Its end is reported later, where it was out.
pub(crate) fn kill<P: Spawner>(spawner: &mut P, serial: Serial) -> Result<(), Failed>
    ensures asked { Grows (P.asked spawner.old) (P.asked spawner.new) (Kill serial ∷ []) }
    ensures told { Grows (as_reports (P.told spawner.old)) (as_reports (P.told spawner.new)) [] }
    ensures misses { P.misses spawner.new ≡ P.misses spawner.old }
    ensures cause { HasCause (P.faults spawner.old) (P.faults spawner.new) result }
{
    spawner.kill(serial)?;
    Ok(())
}

/// Looks for a report.
pub(crate) fn look<P: Spawner>(spawner: &mut P) -> Result<Option<Report>, Failed>
    ensures none { result ≡ Ok None → IsEmpty (P.reporting spawner.old) }
    ensures asked { Grows (P.asked spawner.old) (P.asked spawner.new) [] }
    ensures told { Grows (as_reports (P.told spawner.old)) (as_reports (P.told spawner.new)) (map call_of (looked result)) }
    ensures misses { RisesBy (P.misses spawner.old) (count_by is_spawner_fault (map call_of (looked result))) (P.misses spawner.new) }
    ensures cause { HasCause (P.faults spawner.old) (P.faults spawner.new) result }
{
    match spawner.ended()? {
        None => Ok(None),
        Some(event) => Ok(Some(Report::of_event(event))),
    }
}

/// Waits for a report, until the moment at the latest where one is given.
pub(crate) fn wait<P: Spawner, R: Wait>(
    rt: &R,
    spawner: &mut P,
    until: Option<Moment>,
) -> Result<Option<Report>, Failed>
    ensures none { result ≡ Ok None → until ≡ None → IsEmpty (P.out spawner.old) }
    ensures awaited { Grows (P.awaited spawner.old) (P.awaited spawner.new) (until ∷ []) }
    ensures asked { Grows (P.asked spawner.old) (P.asked spawner.new) [] }
    ensures told { Grows (as_reports (P.told spawner.old)) (as_reports (P.told spawner.new)) (map call_of (looked result)) }
    ensures misses { RisesBy (P.misses spawner.old) (count_by is_spawner_fault (map call_of (looked result))) (P.misses spawner.new) }
    ensures cause { HasCause (P.faults spawner.old) (P.faults spawner.new) result }
{
    match spawner.wait_ended(rt, until)? {
        None => Ok(None),
        Some(event) => Ok(Some(Report::of_event(event))),
    }
}
