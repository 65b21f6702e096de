// Where connections come from.
ghost use Rattle.std.specs.Prelude.{◌≡◌, None, IsSome, if◌then◌else◌};
ghost use Rattle.wm_traits.specs.Told.{Stays};
ghost use Rattle.wm_traits.specs.Cause.{HasCause, raised};
ghost use Rattle.wm_listener.specs.Had.{GivesBack};
ghost use Rattle.wm_listener.specs.Next.{GivesNew, hand_with, is_dry};

use crate::{Desk, Next};
use std::sync::Wait;
use wm_traits::{Failed, Sink, Source};

/// What gives connections, each to one worker.
pub trait Listener {
    type I: Source;

    type O: Sink;

    type D: Desk;

    /// Waits for a connection. Dry comes only where none can come any more, and Closed only behind a `close`. An `Err` is a
    /// look that failed, which the desk has counted.
    fn next<R: Wait>(&self, rt: &R, desk: &mut Self::D) -> Result<Next<Self::I, Self::O>, Failed>
        requires free { Self.D.hand desk.old ≡ None }
        ensures new { GivesNew Self.I.faults Self.O.faults Self.O.written result }
        ensures hand { Self.D.hand desk.new ≡ hand_with Self.I.left result }
        ensures dries { Self.D.dries desk.new ≡ (if is_dry result then raised (Self.D.dries desk.old) else Self.D.dries desk.old) }
        ensures had { Stays (Self.D.had desk.old) (Self.D.had desk.new) }
        ensures cause { HasCause (Self.D.faults desk.old) (Self.D.faults desk.new) result };

    /// Takes the connection in hand back.
    fn done(&self, desk: &mut Self::D, input: Self::I, output: Self::O)
        requires holds { IsSome (Self.D.hand desk.old) }
        ensures hand { Self.D.hand desk.new ≡ None }
        ensures had { GivesBack (Self.D.had desk.old) (Self.D.had desk.new) (Self.D.hand desk.old) (Self.I.left input) (Self.O.written output) (Self.I.faults input) (Self.O.faults output) }
        ensures dries { Self.D.dries desk.new ≡ Self.D.dries desk.old }
        ensures faults { Self.D.faults desk.new ≡ Self.D.faults desk.old };

    /// No connection is given from now on, and no worker waits for one any more.
    fn close(&self);
}
