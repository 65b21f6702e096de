// The threads that wait for children, each for one at a time.
ghost use Rattle.std.specs.Prelude.{◌≡◌, ◌≤◌, IsTrue, if◌then◌else◌};
ghost use Rattle.wm_traits.specs.Cause.{raised};
ghost use Rattle.wm_children.specs.Threads.{threads_after};

use crate::bell::{Bell, Message};
use crate::ends::Ends;
use crate::finished::finish;
use crate::running::Running;
use crossbeam_channel::{Receiver, Sender, bounded};
use std::alloc::{AllocError, Global};
use std::sync::Wait;
use std::thread;
use std::thread::Threads;
use wm_base::NoMemory;

/// The most children that are out at once. It is the room of the channels, so that no send waits.
pub const MOST_CHILDREN: usize = 16_384;

// The room of the channel of the ends: one for each child, and one for a ring.
const MOST_MESSAGES: usize = MOST_CHILDREN + 1;

/// The way to the waiters. One thread hires the others, each when it is asked to, and answers whether a thread could be
/// made. It counts the threads that were hired, how often none could be made, and the children that were handed over.
#[derive(Drop)]
pub struct Waiters {
    children: Sender<Running>,
    wanted: Sender<()>,
    made: Receiver<bool>,
    hired: usize,
    refused: u64,
    handed: u64,
}

// Waits for one child after another.
fn wait_for_each<R: Wait>(rt: &R, children: &Receiver<Running>, ends: &Sender<Message>) {
    for running in children.iter(rt) {
        if ends.send(rt, Message::End(finish(running))).is_err() {
            return;
        }
    }
}

// Starts a waiter.
fn start_waiter<R: Threads + Wait + Copy + Send + 'static>(
    rt: R,
    children: &Receiver<Running>,
    ends: &Sender<Message>,
) -> Result<(), AllocError> {
    let children = children.clone()?;
    let ends = ends.clone()?;
    thread::spawn(&rt, move || wait_for_each(&rt, &children, &ends))?;
    Ok(())
}

// Starts a waiter for each that is wanted, and answers whether a thread could be made.
fn hire_each<R: Threads + Wait + Copy + Send + 'static>(
    rt: R,
    wanted: &Receiver<()>,
    made: &Sender<bool>,
    children: &Receiver<Running>,
    ends: &Sender<Message>,
) {
    for () in wanted.iter(&rt) {
        let is_made = start_waiter(rt, children, ends).is_ok();
        if made.send(&rt, is_made).is_err() {
            return;
        }
    }
}

/// A pool with no waiter yet: the way to the waiters, and where their ends come from.
pub fn pool<R: Threads + Wait + Copy + Send + 'static>(
    alloc: Global,
    rt: R,
) -> Result<(Waiters, Ends), NoMemory> {
    let (children, to_wait_for) = bounded::<Running, Global>(alloc, MOST_CHILDREN)?;
    let (wanted, to_hire) = bounded::<(), Global>(alloc, 1)?;
    let (answer, made) = bounded::<bool, Global>(alloc, 1)?;
    let (ends, from) = bounded::<Message, Global>(alloc, MOST_MESSAGES)?;
    let bell = Bell::new(alloc, ends.clone()?)?;
    thread::spawn(&rt, move || {
        hire_each(rt, &to_hire, &answer, &to_wait_for, &ends);
    })?;
    let waiters = Waiters {
        children,
        wanted,
        made,
        hired: 0,
        refused: 0,
        handed: 0,
    };
    Ok((waiters, Ends::new(from, bell)))
}

impl Waiters {
    // Has the hiring thread start a waiter, and answers whether it could.
    fn hire_one<R: Wait>(&self, rt: &R) -> bool {
        self.wanted.send(rt, ()).is_ok() && self.made.recv(rt).unwrap_or(false)
    }

    /// Hires a waiter where no waiter is idle once so many children are out, and answers whether one is there for each.
    /// It is false only where no thread could be made.
    pub fn hire<R: Wait>(&mut self, rt: &R, out: usize) -> bool
        ensures idle { out ≤ self.old.hired → IsTrue result }
        ensures hired { self.new.hired ≡ (if result then threads_after out self.old.hired else self.old.hired) }
        ensures refused { self.new.refused ≡ (if result then self.old.refused else raised self.old.refused) }
        ensures handed { self.new.handed ≡ self.old.handed }
    {
        if out <= self.hired {
            return true;
        }
        if self.hire_one(rt) {
            self.hired += 1;
            return true;
        }
        self.refused = self.refused.saturating_add(1);
        false
    }

    /// Hands a child over, and answers whether somebody is there to take it.
    pub fn hand<R: Wait>(&mut self, rt: &R, running: Running) -> bool
        ensures handed { self.new.handed ≡ raised self.old.handed }
        ensures hired { self.new.hired ≡ self.old.hired }
        ensures refused { self.new.refused ≡ self.old.refused }
    {
        self.handed = self.handed.saturating_add(1);
        self.children.send(rt, running).is_ok()
    }
}
