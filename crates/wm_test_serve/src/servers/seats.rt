// The seats of a server over forms in memory, on which nothing has run.
ghost use Rattle.wm_test_serve.specs.Fresh.{AreFresh};

use super::failing::Failing;
use std::alloc::{AllocError, Global};
use wm_base::Moment;
use wm_listener::MemDesk;
use wm_outside::{MemClock, MemKeeper, MemSpawner};
use wm_serve::{Crew, Seat};

pub type TestSeat = Seat<MemKeeper, MemDesk, MemSpawner, MemClock>;

pub type TestCrew = Crew<MemKeeper, MemDesk, MemSpawner, MemClock>;

fn clock() -> MemClock {
    MemClock::new(Moment::new(1000), 0)
}

fn add_worker(alloc: Global, crew: &mut TestCrew) -> Result<(), AllocError>
    requires fresh { AreFresh crew.old.seats.items }
    ensures fresh { AreFresh crew.new.seats.items }
{
    crew.push(Seat::worker(MemDesk::new(alloc), clock()))
}

fn add_closer(crew: &mut TestCrew) -> Result<(), AllocError>
    requires fresh { AreFresh crew.old.seats.items }
    ensures fresh { AreFresh crew.new.seats.items }
{
    crew.push(Seat::closer(clock()))
}

fn add_monitor(spawner: MemSpawner, crew: &mut TestCrew) -> Result<(), AllocError>
    requires fresh { AreFresh crew.old.seats.items }
    ensures fresh { AreFresh crew.new.seats.items }
{
    crew.push(Seat::monitor(spawner, clock()))
}

/// The seats of so many workers, the closer and so many monitors, of which one call may fail.
pub fn add_seats(
    alloc: Global,
    workers: u32,
    monitors: u32,
    failing: Failing,
    crew: &mut TestCrew,
) -> Result<(), AllocError>
    requires fresh { AreFresh crew.old.seats.items }
    ensures fresh { AreFresh crew.new.seats.items }
{
    for _ in 0..workers {
        add_worker(alloc, crew)?;
    }
    add_closer(crew)?;
    for _ in 0..monitors {
        add_monitor(failing.spawner(alloc)?, crew)?;
    }
    Ok(())
}
