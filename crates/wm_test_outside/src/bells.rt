// Waits that are ended by the bell of the system's spawner.
use super::answers::answer_look;
use anyhow::{Result, bail};
use crossbeam_channel::{Receiver, Sender, bounded};
use std::alloc::Global;
use std::fmt::Write;
use std::process::{Processes, SystemProcess};
use std::sync::Wait;
use std::thread;
use std::thread::Threads;
use std::time::{Clock, Duration, Instant};
use wm_base::{Event, Moment};
use wm_children::{Bell, SysSpawner};
use wm_traits::{Failed, Spawner};

// How many milliseconds a thread pauses before it rings, so that the wait has begun.
const PAUSE: u64 = 20;

// The quickest of some waits that are ended by a ring takes fewer milliseconds.
const QUICK: u64 = 500;

fn ring_often<R: Wait>(rt: &R, bell: &Bell, times: u32) {
    for _ in 0..times {
        bell.ring(rt);
    }
}

// A bell that is to be rung so often behind a pause.
#[derive(Drop)]
struct RingOrder {
    bell: Bell,
    pause: Duration,
    times: u32,
}

/// The way to a thread that rings bells, one after another. It answers each time once it has rung.
#[derive(Drop)]
pub struct Ringer {
    to_ring: Sender<RingOrder>,
    rung: Receiver<()>,
}

// Rings what is told, until nobody can tell it any more.
fn ring_each<R: Wait + Clock>(rt: &R, to_ring: &Receiver<RingOrder>, rung: &Sender<()>) {
    for RingOrder { bell, pause, times } in to_ring.iter(rt) {
        rt.sleep(pause);
        ring_often(rt, &bell, times);
        if rung.send(rt, ()).is_err() {
            return;
        }
    }
}

impl Ringer {
    /// One whose thread ends once it is let go.
    pub fn new<R: Threads + Wait + Clock + Copy + Send + 'static>(
        alloc: Global,
        rt: R,
    ) -> Result<Ringer> {
        let (to_ring, told) = bounded::<RingOrder, Global>(alloc, 1)?;
        let (answer, rung) = bounded::<(), Global>(alloc, 1)?;
        thread::spawn(&rt, move || ring_each(&rt, &told, &answer))?;
        Ok(Ringer { to_ring, rung })
    }

    // Has a bell rung so often behind a pause, by the other thread.
    fn start<R: Wait>(&self, rt: &R, bell: Bell, pause: Duration, times: u32) -> Result<()> {
        let rings = RingOrder { bell, pause, times };
        if self.to_ring.send(rt, rings).is_err() {
            bail!("the thread that rings has ended");
        }
        Ok(())
    }

    // Waits until it was rung.
    fn join<R: Wait>(&self, rt: &R) -> Result<()> {
        if self.rung.recv(rt).is_err() {
            bail!("the thread that rings has ended");
        }
        Ok(())
    }
}

/// Answers `ring 3`, which rings so often before the next wait.
pub fn ring<R: Processes<Started = SystemProcess> + Wait + Clock>(
    rt: &R,
    spawner: &SysSpawner<R>,
    times: &str,
    answer: &mut String,
) -> Result<()> {
    let bell = spawner.bell()?;
    ring_often(rt, &bell, times.parse::<u32>()?);
    answer.push_str("RUNG\n")?;
    Ok(())
}

fn wait_long<R: Processes<Started = SystemProcess> + Wait + Clock>(
    rt: &R,
    spawner: &mut SysSpawner<R>,
) -> Result<Option<Event>, Failed> {
    spawner.wait_ended(rt, Some(Moment::new(Moment::MAX)))
}

// A wait until the greatest moment, which another thread ends by one ring: what it came to, and how long it took behind the
// pause of that thread.
fn wait_for_ring<R: Processes<Started = SystemProcess> + Wait + Clock>(
    rt: &R,
    spawner: &mut SysSpawner<R>,
    ringer: &Ringer,
    answer: &mut String,
) -> Result<Duration> {
    let pause = Duration::from_millis(PAUSE);
    let start = Instant::now(rt)?;
    ringer.start(rt, spawner.bell()?, pause, 1)?;
    let found = wait_long(rt, spawner);
    let taken = start.elapsed(rt)?;
    ringer.join(rt)?;
    answer_look(found, answer)?;
    Ok(taken.saturating_sub(pause))
}

/// Answers `rings 5`: what so many waits until the greatest moment come to, each of which another thread ends by one ring,
/// and whether the quickest of them was quick.
pub fn rings<R: Processes<Started = SystemProcess> + Wait + Clock>(
    rt: &R,
    spawner: &mut SysSpawner<R>,
    ringer: &Ringer,
    times: &str,
    answer: &mut String,
) -> Result<()> {
    let mut quickest = Duration::MAX;
    for _ in 0..times.parse::<u32>()? {
        quickest = quickest.min(wait_for_ring(rt, spawner, ringer, answer)?);
    }
    writeln!(
        answer,
        "{}",
        if quickest < Duration::from_millis(QUICK) {
            "QUICK"
        } else {
            "SLOW"
        }
    )?;
    Ok(())
}

// Waits until the greatest moment, up to so many times, until there is a report.
fn wait_often<R: Processes<Started = SystemProcess> + Wait + Clock>(
    rt: &R,
    spawner: &mut SysSpawner<R>,
    most: u32,
) -> Result<Option<Event>, Failed> {
    for _ in 0..most {
        let found = wait_long(rt, spawner)?;
        if found.is_some() {
            return Ok(found);
        }
    }
    Ok(None)
}

/// Answers `storm 1000`: the end of a child, for which is waited until the greatest moment while another thread rings so
/// often. No ring ends two waits, so one wait more than there are rings sees the end.
pub fn storm<R: Processes<Started = SystemProcess> + Wait + Clock>(
    rt: &R,
    spawner: &mut SysSpawner<R>,
    ringer: &Ringer,
    times: &str,
    answer: &mut String,
) -> Result<()> {
    let times = times.parse::<u32>()?;
    ringer.start(rt, spawner.bell()?, Duration::ZERO, times)?;
    let found = wait_often(rt, spawner, times.saturating_add(1));
    ringer.join(rt)?;
    answer_look(found, answer)
}
