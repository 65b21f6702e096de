// What one thread of a server needs, with room for its pass of the floor.
ghost use Rattle.std.specs.Prelude.{◌≡◌, None};
ghost use Rattle.std.specs.Option.{option_copied};
ghost use Rattle.wm_serve.specs.Halts.{seat_halt};
ghost use Rattle.wm_serve.specs.Seats.{IsFresh, Tellers, desk_of, is_dry, pass_of};

use crate::halt::Halt;
use crate::worker::Stopped;
use wm_floor::{FloorPass, Monitor, MonitorFault};
use wm_traits::Keeper;

/// A worker's desk and clock, and why the worker stopped last.
pub struct WorkerSeat<K: Keeper, D, C> {
    pub(crate) desk: D,
    pub(crate) clock: C,
    pub(crate) pass: Option<FloorPass<K>>,
    pub(crate) stopped: Option<Stopped>,
}

/// A monitor with its spawner and clock, and the fault that ended it.
pub struct MonitorSeat<K: Keeper, P, C> {
    pub(crate) spawner: P,
    pub(crate) clock: C,
    pub(crate) monitor: Monitor,
    pub(crate) pass: Option<FloorPass<K>>,
    pub(crate) fault: Option<MonitorFault>,
}

/// What one thread of a server needs. The closer's thread does nothing: its clock is that of the server's own calls.
pub enum Seat<K: Keeper, D, P, C> {
    Worker(WorkerSeat<K, D, C>),
    Closer(C),
    Monitor(MonitorSeat<K, P, C>),
}

// Ends the room for a pass, in which there is none.
fn end_none<K: Keeper>(pass: Option<FloorPass<K>>)
    requires { pass ≡ None }
{
    match pass {
        None => {}
        Some(_) => unreachable!(),
    }
}

impl<K: Keeper, D, P, C> Seat<K, D, P, C> {
    /// A worker's seat.
    pub fn worker(desk: D, clock: C) -> Seat<K, D, P, C>
        ensures fresh { (t : Tellers D P) → t.hand desk ≡ None → IsFresh t result }
    {
        Seat::Worker(WorkerSeat {
            desk,
            clock,
            pass: None,
            stopped: None,
        })
    }

    /// The closer's seat.
    pub fn closer(clock: C) -> Seat<K, D, P, C>
        ensures fresh { (t : Tellers D P) → IsFresh t result }
    {
        Seat::Closer(clock)
    }

    /// A monitor's seat.
    pub fn monitor(spawner: P, clock: C) -> Seat<K, D, P, C>
        ensures fresh { (t : Tellers D P) → IsFresh t result }
    {
        Seat::Monitor(MonitorSeat {
            spawner,
            clock,
            monitor: Monitor::new(),
            pass: None,
            fault: None,
        })
    }

    /// A worker's desk; none of another seat.
    pub fn desk(&self) -> Option<&D>
        ensures desk { option_copied result ≡ desk_of self.now }
    {
        match self {
            Seat::Worker(worker) => Some(&worker.desk),
            Seat::Closer(_) | Seat::Monitor(_) => None,
        }
    }

    // The fault that ended its thread.
    pub(crate) fn halt(&self) -> Option<Halt>
        ensures { result ≡ seat_halt self.now }
    {
        match self {
            Seat::Worker(worker) => match worker.stopped {
                Some(Stopped::Failed) => Some(Halt::ListenFault),
                Some(Stopped::NoMemory) => Some(Halt::NoMemory),
                Some(Stopped::Dry | Stopped::Closed) | None => None,
            },
            Seat::Closer(_) => None,
            Seat::Monitor(monitor) => monitor.fault.map(Halt::from),
        }
    }

    // Whether no connection can come any more to its worker, where it is a worker's.
    pub(crate) fn is_dry(&self) -> bool
        ensures { result ≡ is_dry self.now }
    {
        match self {
            Seat::Worker(worker) => matches!(worker.stopped, Some(Stopped::Dry)),
            Seat::Closer(_) | Seat::Monitor(_) => true,
        }
    }
}

impl<K: Keeper, D: Drop, P: Drop, C: Drop> Seat<K, D, P, C> {
    /// Lets the seat go, which can't be dropped while it may have a pass.
    pub fn leave(self)
        requires { pass_of self ≡ None }
    {
        match self {
            Seat::Worker(
                WorkerSeat {
                    desk: _desk,
                    clock: _clock,
                    pass,
                    stopped: _,
                },
            ) => end_none(pass),
            Seat::Closer(_) => {}
            Seat::Monitor(
                MonitorSeat {
                    spawner: _spawner,
                    clock: _clock,
                    monitor: _monitor,
                    pass,
                    fault: _,
                },
            ) => end_none(pass),
        }
    }
}
