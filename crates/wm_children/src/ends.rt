// The channel of the ends, as the spawner has it.
ghost use Rattle.std.specs.Prelude.{◌≡◌, true, if◌then◌else◌, is_some};
ghost use Rattle.wm_traits.specs.Cause.{raised};
ghost use Rattle.wm_children.specs.Waiting.{IsRung, PassesAt, came_with, came_by};

use crate::bell::{Bell, Message, Ring};
use crate::finished::Finished;
use crate::reading::{Reading, time_to_sleep};
use crossbeam_channel::Receiver;
use std::alloc::AllocError;
use std::rt::Clock;
use std::sync::Wait;
use wm_base::Moment;

/// What a wait until a moment came to: an end, the moment by this reading of the clock, a ring, or that nobody is left who
/// could send an end.
#[derive(Drop)]
pub enum Waited {
    Came(Finished),
    Passed(Reading),
    Rung(Ring),
    Gone,
}

/// Where ends come from, and the bell whose rings come between them. It counts how often it was looked at, the ends that
/// came, and the rings that were heard.
#[derive(Drop)]
pub struct Ends {
    from: Receiver<Message>,
    bell: Bell,
    // The ring that was met where only an end was asked for. It is for the next wait until a moment.
    met: Option<Ring>,
    looks: u64,
    came: u64,
    heard: u64,
}

// The end that is there. A ring is kept.
fn try_end<R: Wait>(rt: &R, from: &Receiver<Message>, met: &mut Option<Ring>) -> Option<Finished>
    ensures { is_some met.old ≡ true → is_some met.new ≡ true }
{
    match from.try_recv(rt).ok()? {
        Message::End(finished) => Some(finished),
        Message::Ring(ring) => {
            *met = Some(ring);
            None
        }
    }
}

// The end that is there, behind a ring too: no second one is there, since none is sent while one is kept.
fn look_for_end<R: Wait>(
    rt: &R,
    from: &Receiver<Message>,
    met: &mut Option<Ring>,
) -> Option<Finished>
    ensures { is_some met.old ≡ true → is_some met.new ≡ true }
{
    let found = try_end(rt, from, met);
    if found.is_none() && met.is_some() {
        return try_end(rt, from, met);
    }
    found
}

// The end that comes next. A ring is kept.
fn wait_for_end<R: Wait>(
    rt: &R,
    from: &Receiver<Message>,
    met: &mut Option<Ring>,
) -> Option<Finished>
    ensures { is_some met.old ≡ true → is_some met.new ≡ true }
{
    for _ in rt.forever() {
        match from.recv(rt) {
            Ok(Message::End(finished)) => return Some(finished),
            Ok(Message::Ring(ring)) => *met = Some(ring),
            Err(_) => return None,
        }
    }
    unreachable!()
}

// What comes until the moment. After each sleep the clock is asked again.
fn wait_until<R: Wait + Clock>(rt: &R, from: &Receiver<Message>, until: Moment) -> Waited
    ensures passed { PassesAt until result }
{
    for _ in rt.forever() {
        let reading = Reading::of(rt);
        let Some(sleep) = time_to_sleep(reading, until) else {
            return Waited::Passed(reading);
        };
        match from.recv_timeout(rt, sleep) {
            Ok(Message::End(finished)) => return Waited::Came(finished),
            Ok(Message::Ring(ring)) => return Waited::Rung(ring),
            Err(fault) if fault.is_timeout() => {}
            Err(_) => return Waited::Gone,
        }
    }
    unreachable!()
}

impl Ends {
    pub fn new(from: Receiver<Message>, bell: Bell) -> Ends
        ensures { result.looks ≡ 0 }
    {
        Ends {
            from,
            bell,
            met: None,
            looks: 0,
            came: 0,
            heard: 0,
        }
    }

    /// One more of the same bell.
    pub fn bell(&self) -> Result<Bell, AllocError> {
        self.bell.clone()
    }

    // Counts a look, which found this.
    fn count(&mut self, is_found: bool)
        ensures looks { self.new.looks ≡ raised self.old.looks }
        ensures came { self.new.came ≡ (if is_found then raised self.old.came else self.old.came) }
        ensures heard { self.new.heard ≡ self.old.heard }
        ensures met { self.new.met ≡ self.old.met }
    {
        self.looks = self.looks.saturating_add(1);
        if is_found {
            self.came = self.came.saturating_add(1);
        }
    }

    /// What has come, if anything.
    pub fn look<R: Wait>(&mut self, rt: &R) -> Option<Finished>
        ensures looks { self.new.looks ≡ raised self.old.looks }
        ensures came { self.new.came ≡ came_with result self.old.came }
        ensures heard { self.new.heard ≡ self.old.heard }
        ensures kept { is_some self.old.met ≡ true → is_some self.new.met ≡ true }
    {
        let found = look_for_end(rt, &self.from, &mut self.met);
        self.count(found.is_some());
        found
    }

    /// What comes next. It is None only where nobody is left who could send.
    pub fn wait<R: Wait>(&mut self, rt: &R) -> Option<Finished>
        ensures looks { self.new.looks ≡ raised self.old.looks }
        ensures came { self.new.came ≡ came_with result self.old.came }
        ensures heard { self.new.heard ≡ self.old.heard }
        ensures kept { is_some self.old.met ≡ true → is_some self.new.met ≡ true }
    {
        let found = wait_for_end(rt, &self.from, &mut self.met);
        self.count(found.is_some());
        found
    }

    /// What comes until the moment. A ring that was met before comes at once.
    pub fn wait_until<R: Wait + Clock>(&mut self, rt: &R, until: Moment) -> Waited
        ensures looks { self.new.looks ≡ raised self.old.looks }
        ensures came { self.new.came ≡ came_by result self.old.came }
        ensures heard { self.new.heard ≡ self.old.heard }
        ensures passed { PassesAt until result }
        ensures rung { is_some self.old.met ≡ true → IsRung result }
    {
        let waited = match self.met.take() {
            Some(ring) => Waited::Rung(ring),
            None => wait_until(rt, &self.from, until),
        };
        self.count(matches!(waited, Waited::Came(_)));
        waited
    }

    /// A ring that came is heard.
    pub fn hear(&mut self, ring: Ring)
        ensures looks { self.new.looks ≡ self.old.looks }
        ensures came { self.new.came ≡ self.old.came }
        ensures heard { self.new.heard ≡ raised self.old.heard }
    {
        self.bell.hear(ring);
        self.heard = self.heard.saturating_add(1);
    }
}
