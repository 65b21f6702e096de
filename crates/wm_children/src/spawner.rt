// Child programs of std as a spawner.
ghost use Rattle.std.specs.Prelude.{◌≡◌, ◌≤◌, ◌<◌, ◌≢◌, ◌↔◌, [], ◌∷◌, ◌++◌, true, false, Some, None, Ok, refl, IsTrue, Contains, OnOk, OnErr, OnSome, IsSome, IfOk, IfSome, IfNone, IsErrOf, length, ◌+◌, vec_len, vec_capacity};
ghost use Rattle.wm_traits.specs.Cause.{HasCause, HasStartCause, raised};
ghost use Rattle.wm_traits.specs.declared.fault.StartFault.TheVariants.{Failed as start_failed, NoMemory as no_memory};

use crate::bell::Bell;
use crate::command::command_of;
use crate::ends::{Ends, Waited};
use crate::finished::Finished;
use crate::launch::Programs;
use crate::reading::Reading;
use crate::running::Running;
use crate::started::{Started, kill_child, place_of};
use crate::waiters::{MOST_CHILDREN, Waiters, pool};
use std::alloc::Global;
use std::process::{Command, Processes, SystemProcess};
use std::rt::Clock;
use std::sync::Wait;
use std::thread::Threads;
use wm_base::{Event, Exit, Moment, NoMemory, Serial, StartOrder};
use wm_traits::{Failed, Spawner, StartFault};

/// A spawner of real programs, each started by its path with its arguments, with no input, its output dropped. A child's
/// end is its exit code, or `Killed` where a signal ended it. A kill ends the child alone, and not what the child has
/// started. A spawner that is dropped leaves its children running.
#[derive(Drop)]
pub struct SysSpawner<R: Processes<Started = SystemProcess> + Wait + Clock> {
    rt: R,
    alloc: Global,
    children: Vec<Started>,
    programs: Programs,
    waiters: Waiters,
    ends: Ends,
    // The child whose end was reported last.
    last: Option<Finished>,
    // The clock as it was read when a wait gave up last.
    reading: Reading,
    // The system couldn't tell how a child ended, so its end is never reported.
    lost: bool,
    misses: u64,
    faults: u64,
}

impl<
    R: Processes<Started = SystemProcess> + Threads + Wait + Clock + Copy + Send + 'static,
> SysSpawner<R> {
    ghost use Rattle.wm_children.specs.Children.{children_out, child_misses, child_faults, HasThreads};

    /// A spawner with no child. It starts the thread that hires the others.
    pub fn new(alloc: Global, rt: R) -> Result<SysSpawner<R>, NoMemory>
        ensures out { IfOk result (λ spawner. children_out spawner ≡ []) }
        ensures misses { IfOk result (λ spawner. child_misses spawner ≡ 0) }
        ensures faults { IfOk result (λ spawner. child_faults spawner ≡ 0) }
        ensures threads { IfOk result HasThreads }
    {
        let (waiters, ends) = pool(alloc, rt)?;
        Ok(SysSpawner {
            rt,
            alloc,
            children: Vec::new(alloc),
            programs: Programs::new(),
            waiters,
            ends,
            last: None,
            reading: Reading::none(),
            lost: false,
            misses: 0,
            faults: 0,
        })
    }
}

impl<R: Processes<Started = SystemProcess> + Wait + Clock> SysSpawner<R> {
    ghost use Rattle.wm_children.specs.Children.{children_out, child_looks, ends_came, child_misses, child_faults, has_lost, last_end, child_threads, children_handed, programs_asked, HasThreads, StartsNothing, StartsOne, CannotStart, LosesNoRing, MayComeBack, OnlyReports};
    ghost use Rattle.wm_children.specs.Reports.{CannotReport, GivesUp, TellsEndOf};
    ghost use Rattle.wm_children.specs.Threads.{threads_after};
    ghost use Rattle.wm_children.specs.Waiting.{came_with};

    /// What ends this spawner's waits until a moment, for other threads. An `Err` is want of memory.
    pub fn bell(&self) -> Result<Bell, NoMemory> {
        Ok(self.ends.bell()?)
    }

    fn fail(&mut self) -> Failed
        ensures out { children_out self.new ≡ children_out self.old }
        ensures faults { child_faults self.new ≡ raised (child_faults self.old) }
        ensures later { child_faults self.old ≤ child_faults self.new }
        ensures last { last_end self.new ≡ last_end self.old }
        ensures lost { has_lost self.new ≡ has_lost self.old }
        ensures rest { OnlyReports self.old self.new }
    {
        self.faults = self.faults.saturating_add(1);
        Failed
    }

    // Starts a child, where there is room for one more and a thread that will wait for it.
    fn spawn(&mut self, command: &mut Command, serial: Serial) -> Option<Running>
        ensures serial { IfSome result (λ running. running.serial ≡ serial) }
        ensures asked { OnSome result (programs_asked self.new ≡ raised (programs_asked self.old)) }
        ensures threads { OnSome result (child_threads self.new ≡ threads_after (length (children_out self.old) + 1) (child_threads self.old)) }
        ensures kept { child_threads self.old ≤ child_threads self.new }
        ensures why { IfNone result (CannotStart self.old self.new) }
        ensures handed { children_handed self.new ≡ children_handed self.old }
        ensures children { self.new.children ≡ self.old.children }
        ensures misses { child_misses self.new ≡ child_misses self.old }
        ensures faults { child_faults self.new ≡ child_faults self.old }
    {
        let out = self.children.len();
        if out >= MOST_CHILDREN || !self.waiters.hire(&self.rt, out + 1) {
            return None;
        }
        self.programs.start(&self.rt, command, serial)
    }

    // Hands a child to a waiter. Where nobody is there to take it, its end is never seen.
    fn hand(&mut self, running: Running)
        requires { vec_len self.old.children < vec_capacity self.old.children }
        ensures out { children_out self.new ≡ children_out self.old ++ running.serial ∷ [] }
        ensures handed { children_handed self.new ≡ raised (children_handed self.old) }
        ensures programs { self.new.programs ≡ self.old.programs }
        ensures threads { child_threads self.new ≡ child_threads self.old }
        ensures misses { child_misses self.new ≡ child_misses self.old }
        ensures faults { child_faults self.new ≡ child_faults self.old }
    {
        let started = Started {
            serial: running.serial,
            number: running.child.id(),
        };
        self.children.push(started).unwrap();
        if !self.waiters.hand(&self.rt, running) {
            self.lost = true;
        }
    }

    // Sleeps until an end comes. Where none can come any more, a child is lost.
    fn wait(&mut self) -> Option<Finished>
        ensures lost { result ≡ None → has_lost self.new ≡ true }
        ensures out { children_out self.new ≡ children_out self.old }
        ensures misses { child_misses self.new ≡ child_misses self.old }
        ensures faults { child_faults self.new ≡ child_faults self.old }
        ensures looks { child_looks self.new ≡ raised (child_looks self.old) }
        ensures came { ends_came self.new ≡ came_with result (ends_came self.old) }
        ensures nothing { StartsNothing self.old self.new }
        ensures rings { LosesNoRing self.old self.new }
    {
        let found = self.ends.wait(&self.rt);
        if found.is_none() {
            self.lost = true;
        }
        found
    }

    // Sleeps until an end comes, the moment, or a ring. Where none can come any more, a child is lost.
    fn wait_until(&mut self, until: Moment) -> Option<Finished>
        ensures none { result ≡ None → has_lost self.new ≡ false → MayComeBack self.old self.new until }
        ensures out { children_out self.new ≡ children_out self.old }
        ensures misses { child_misses self.new ≡ child_misses self.old }
        ensures faults { child_faults self.new ≡ child_faults self.old }
        ensures looks { child_looks self.new ≡ raised (child_looks self.old) }
        ensures came { ends_came self.new ≡ came_with result (ends_came self.old) }
        ensures nothing { StartsNothing self.old self.new }
        ensures rings { LosesNoRing self.old self.new }
    {
        match self.ends.wait_until(&self.rt, until) {
            Waited::Came(finished) => return Some(finished),
            Waited::Passed(reading) => self.reading = reading,
            Waited::Rung(ring) => self.ends.hear(ring),
            Waited::Gone => self.lost = true,
        }
        None
    }

    // The next end, until the moment or a ring at the latest where a moment is given. Where no child is out, none comes.
    fn next(&mut self, until: Option<Moment>) -> Option<Finished>
        ensures none { result ≡ None → until ≡ None → has_lost self.new ≡ false → children_out self.old ≡ [] }
        ensures moment { result ≡ None → has_lost self.new ≡ false → IfSome until (MayComeBack self.old self.new) }
        ensures out { children_out self.new ≡ children_out self.old }
        ensures misses { child_misses self.new ≡ child_misses self.old }
        ensures faults { child_faults self.new ≡ child_faults self.old }
        ensures looked { raised (child_looks self.old) ≤ child_looks self.new }
        ensures came { ends_came self.new ≡ came_with result (ends_came self.old) }
        ensures nothing { StartsNothing self.old self.new }
        ensures rings { LosesNoRing self.old self.new }
    {
        let found = self.ends.look(&self.rt);
        if found.is_some() || self.lost {
            return found;
        }
        match until {
            Some(until) => self.wait_until(until),
            None if self.children.is_empty() => None,
            None => self.wait(),
        }
    }

    // Takes out the child that has ended so. That it isn't out is a fault.
    fn take(&mut self, serial: Serial, exit: Exit) -> Result<Option<Event>, Failed>
        ensures gives { GivesUp result (children_out self.old) (children_out self.new) }
        ensures event { IfOk result (λ report. report ≡ Some (Event.Ended serial exit)) }
        ensures none { OnErr result (Contains (children_out self.old) serial → ⊥) }
        ensures cause { HasCause (child_faults self.old) (child_faults self.new) result }
        ensures last { last_end self.new ≡ last_end self.old }
        ensures rest { OnlyReports self.old self.new }
    {
        match place_of(&self.children, serial) {
            Some(at) => {
                self.children.remove(at);
                Ok(Some(Event::Ended(serial, exit)))
            }
            None => Err(self.fail()),
        }
    }

    // Reports a child that was waited for. Where the system couldn't tell how it ended, it is lost.
    fn report(&mut self, finished: Finished) -> Result<Option<Event>, Failed>
        ensures gives { GivesUp result (children_out self.old) (children_out self.new) }
        ensures end { TellsEndOf (last_end self.new) result }
        ensures last { last_end self.new ≡ Some finished }
        ensures why { OnErr result (CannotReport self.old self.new) }
        ensures some { result ≢ Ok None }
        ensures cause { HasCause (child_faults self.old) (child_faults self.new) result }
        ensures rest { OnlyReports self.old self.new }
    {
        let (serial, exit) = (finished.serial(), finished.exit());
        self.last = Some(finished);
        match exit {
            Some(exit) => self.take(serial, exit),
            None => {
                self.lost = true;
                Err(self.fail())
            }
        }
    }

    // What is answered of a look. Once a child is lost, finding nothing is a fault.
    fn answer(&mut self, found: Option<Finished>) -> Result<Option<Event>, Failed>
        ensures gives { GivesUp result (children_out self.old) (children_out self.new) }
        ensures end { TellsEndOf (last_end self.new) result }
        ensures last { IfSome found (λ finished. last_end self.new ≡ Some finished) }
        ensures why { OnErr result (CannotReport self.old self.new) }
        ensures none { result ≡ Ok None → found ≡ None }
        ensures some { IfOk result (λ report. IsSome report → IsSome found) }
        ensures lost { result ≡ Ok None → has_lost self.old ≡ false }
        ensures cause { HasCause (child_faults self.old) (child_faults self.new) result }
        ensures rest { OnlyReports self.old self.new }
    {
        match found {
            Some(finished) => self.report(finished),
            None if self.lost => Err(self.fail()),
            None => Ok(None),
        }
    }
}

impl<R: Processes<Started = SystemProcess> + Wait + Clock> Spawner for SysSpawner<R> {
    ghost use Rattle.wm_children.specs.Children.{children_out, child_looks, ends_came, child_misses, child_faults, has_lost, last_end, HasThreads, StartsNothing, StartsOne, CannotStart, LosesNoRing, MayComeBack};
    ghost use Rattle.wm_children.specs.Reports.{CannotReport, GivesUp, TellsEndOf, ReportsEach};

    ghost misses = { child_misses };

    ghost faults = { child_faults };

    ghost asked = { λ _. None };

    ghost out = { λ _. None };

    ghost told = { λ _. None };

    ghost reporting = { λ _. None };

    ghost awaited = { λ _. None };

    fn start(&mut self, order: &StartOrder) -> Result<(), StartFault>
        ensures started { OnOk result (children_out self.new ≡ children_out self.old ++ order.now.serial ∷ []) }
        ensures not_started { OnErr result (children_out self.new ≡ children_out self.old) }
        ensures once { OnOk result (StartsOne self.old self.new) }
        ensures nothing { IsErrOf result no_memory → StartsNothing self.old self.new }
        ensures why { IsErrOf result start_failed → CannotStart self.old self.new }
        ensures threads { HasThreads self.old → HasThreads self.new }
        ensures cause { HasStartCause (child_misses self.old) (child_misses self.new) result }
        ensures faults { child_faults self.new ≡ child_faults self.old }
    {
        let Ok(mut command) = command_of(self.alloc, order) else {
            return Err(StartFault::NoMemory);
        };
        // Room for the child is taken first, so that one that was started isn't lost.
        if self.children.reserve(1).is_err() {
            return Err(StartFault::NoMemory);
        }
        let Some(running) = self.spawn(&mut command, order.serial) else {
            self.misses = self.misses.saturating_add(1);
            return Err(StartFault::Failed);
        };
        self.hand(running);
        Ok(())
    }

    fn kill(&mut self, job: Serial) -> Result<bool, Failed>
        ensures was_out { IfOk result (λ was_out. IsTrue was_out ↔ Contains (children_out self.old) job) }
        ensures out { children_out self.new ≡ children_out self.old }
        ensures nothing { StartsNothing self.old self.new }
        ensures cause { HasCause (child_faults self.old) (child_faults self.new) result }
        ensures misses { child_misses self.new ≡ child_misses self.old }
    {
        match kill_child(&self.children, job) {
            Ok(was_out) => Ok(was_out),
            Err(_) => Err(self.fail()),
        }
    }

    fn ended(&mut self) -> Result<Option<Event>, Failed>
        ensures gives { GivesUp result (children_out self.old) (children_out self.new) }
        ensures looked { raised (child_looks self.old) ≤ child_looks self.new }
        ensures none { result ≡ Ok None → has_lost self.old ≡ false }
        ensures end { TellsEndOf (last_end self.new) result }
        ensures each { ReportsEach result (ends_came self.old) (ends_came self.new) }
        ensures why { OnErr result (CannotReport self.old self.new) }
        ensures nothing { StartsNothing self.old self.new }
        ensures rings { LosesNoRing self.old self.new }
        ensures cause { HasCause (child_faults self.old) (child_faults self.new) result }
        ensures misses { child_misses self.new ≡ child_misses self.old }
    {
        let seen = self.ends.look(&self.rt);
        self.answer(seen)
    }

    fn wait_ended<W: Wait>(
        &mut self,
        _rt: &W,
        until: Option<Moment>,
    ) -> Result<Option<Event>, Failed>
        ensures none { result ≡ Ok None → until ≡ None → children_out self.old ≡ [] }
        ensures moment { result ≡ Ok None → IfSome until (MayComeBack self.old self.new) }
        ensures end { TellsEndOf (last_end self.new) result }
        ensures each { ReportsEach result (ends_came self.old) (ends_came self.new) }
        ensures why { OnErr result (CannotReport self.old self.new) }
        ensures nothing { StartsNothing self.old self.new }
        ensures rings { LosesNoRing self.old self.new }
        ensures gives { GivesUp result (children_out self.old) (children_out self.new) }
        ensures looked { raised (child_looks self.old) ≤ child_looks self.new }
        ensures cause { HasCause (child_faults self.old) (child_faults self.new) result }
        ensures misses { child_misses self.new ≡ child_misses self.old }
    {
        let found = self.next(until);
        self.answer(found)
    }

    ghost told_with_out = { λ _. refl };

    ghost reporting_are_out = { λ _. tt };
}
