// A spawner in memory.
ghost use Rattle.std.specs.Prelude.{◌≡◌, ◌↔◌, [], ◌∷◌, ◌++◌, map, Some, None, Ok, is_err, is_some, IsTrue, IfOk, IfErr, IfSome, OnOk, OnErr, MatchResult, Contains};
ghost use Rattle.wm_base.specs.declared.job.Asked.TheVariants.{Start, Kill};
ghost use Rattle.wm_traits.specs.declared.spawner.Told.TheVariants.{Began, NotBegan, Happened};
ghost use Rattle.wm_traits.specs.Told.{Grows, Becomes, IsEmpty, told_if};
ghost use Rattle.wm_traits.specs.Cause.{HasCause, HasStartCause, start_missed};
ghost use Rattle.wm_outside.specs.Calls.{CountsCall, is_new};
ghost use Rattle.wm_traits.specs.Spawner.{look_told, out_after, IfEnded};
ghost use Rattle.wm_outside.specs.Children.{serials, report_of, wait_report, marked, children_after};

use super::calls::Calls;
use super::children::{Child, Children};
use std::alloc::Global;
use std::slice;
use std::sync::Wait;
use wm_base::{Asked, Event, Moment, Serial, StartOrder};
use wm_traits::{Failed, Spawner, StartFault, Told};

/// A spawner whose children end by themselves with code 0 after a number of looks, or by being killed.
///
/// Looks are the calls of `ended` and `wait_ended` together, the failing ones among them. A child has ended from look
/// `lag + 1` after its start on, and a killed one at once; the child of a prestart job isn't ended by looks. A look
/// reports a killed child before others, and of these the one with the least serial. A wait without a moment reports a
/// killed child, else the longest-out child that isn't prestart, else the longest-out child. Where memory is wanting to
/// record a call, it ceases to tell, and goes on.
pub struct MemSpawner {
    lag: u32,
    children: Children,
    asked: Vec<Asked>,
    told: Vec<Told>,
    awaited: Vec<Option<Moment>>,
    tells: bool,
    starts: Calls,
    kills: Calls,
    looks: Calls,
}

// It is written out, so that a caller does not prove again how each part is dropped.
impl Drop for MemSpawner {
    fn drop(self) {
        let MemSpawner {
            lag: _,
            children: _,
            asked: _,
            told: _,
            awaited: _,
            tells: _,
            starts: _,
            kills: _,
            looks: _,
        } = self;
    }
}

// Records what was asked, while it tells.
fn record_asked(asked: &mut Vec<Asked>, tells: &mut bool, entry: Asked)
    ensures grows { Grows (told_if tells.old asked.old.items) (told_if tells.new asked.new.items) (entry ∷ []) }
    ensures never_again { IsTrue tells.new → IsTrue tells.old }
{
    if *tells && asked.push(entry).is_err() {
        *tells = false;
    }
}

// Records a start that was asked for, while it tells.
fn record_start(asked: &mut Vec<Asked>, tells: &mut bool, order: &StartOrder)
    ensures grows { Grows (told_if tells.old asked.old.items) (told_if tells.new asked.new.items) (Start order.now ∷ []) }
    ensures never_again { IsTrue tells.new → IsTrue tells.old }
{
    match order.clone() {
        Ok(order) => record_asked(asked, tells, Asked::Start(order)),
        Err(_) => *tells = false,
    }
}

// What is told of the answer to a start.
fn answer(serial: Serial, outcome: Result<(), StartFault>) -> Told
    ensures { MatchResult outcome (λ _. result ≡ Began serial) (λ fault. result ≡ NotBegan serial fault) }
{
    match outcome {
        Ok(()) => Told::Began(serial),
        Err(fault) => Told::NotBegan(serial, fault),
    }
}

// Records what was told, while it tells.
fn record_told(told: &mut Vec<Told>, tells: &mut bool, entry: &Told)
    ensures grows { Grows (told_if tells.old told.old.items) (told_if tells.new told.new.items) (entry.now ∷ []) }
    ensures never_again { IsTrue tells.new → IsTrue tells.old }
{
    if *tells && told.extend_from_slice(slice::from_ref(entry)).is_err() {
        *tells = false;
    }
}

// Records a wait, while it tells.
fn record_wait(awaited: &mut Vec<Option<Moment>>, tells: &mut bool, until: Option<Moment>)
    ensures grows { Grows (told_if tells.old awaited.old.items) (told_if tells.new awaited.new.items) (until ∷ []) }
    ensures never_again { IsTrue tells.new → IsTrue tells.old }
{
    if *tells && awaited.push(until).is_err() {
        *tells = false;
    }
}

// Counts a start, and keeps its child.
fn begin(starts: &mut Calls, children: &mut Children, child: Child) -> Result<(), StartFault>
    ensures calls { CountsCall starts.old starts.new (start_missed result) }
    ensures ok { OnOk result (children.new ≡ children.old ++ child ∷ []) }
    ensures err { OnErr result (children.new ≡ children.old) }
{
    if starts.count().is_err() {
        return Err(StartFault::Failed);
    }
    if children.push(child).is_err() {
        return Err(StartFault::NoMemory);
    }
    Ok(())
}

// Records a report that is given, while it tells.
fn record_report(told: &mut Vec<Told>, tells: &mut bool, report: &Option<Event>)
    ensures grows { Grows (told_if tells.old told.old.items) (told_if tells.new told.new.items) (look_told (Ok report.now)) }
    ensures never_again { IsTrue tells.new → IsTrue tells.old }
{
    if let Some(event) = report {
        record_told(told, tells, &Told::Happened(*event));
    }
}

impl MemSpawner {
    ghost use Rattle.wm_outside.specs.MemSpawner.{spawner_children, spawner_lag, spawner_starts, spawner_kills, spawner_looks, spawner_asked, spawner_told, child_of};

    /// A spawner with no children, whose starts, kills and looks of these numbers, from 1, fail.
    pub fn new(
        alloc: Global,
        lag: u32,
        fail_starts: Vec<u32>,
        fail_kills: Vec<u32>,
        fail_looks: Vec<u32>,
    ) -> MemSpawner
        ensures children { spawner_children result ≡ [] }
        ensures lag { spawner_lag result ≡ lag }
        ensures asked { spawner_asked result ≡ Some [] }
        ensures told { spawner_told result ≡ Some [] }
        ensures starts { spawner_starts result ≡ is_new fail_starts }
        ensures kills { spawner_kills result ≡ is_new fail_kills }
        ensures looks { spawner_looks result ≡ is_new fail_looks }
    {
        MemSpawner {
            lag,
            children: Children::new(alloc),
            asked: Vec::new(alloc),
            told: Vec::new(alloc),
            awaited: Vec::new(alloc),
            tells: true,
            starts: Calls::new(fail_starts),
            kills: Calls::new(fail_kills),
            looks: Calls::new(fail_looks),
        }
    }

    /// The starts and kills that were asked for, in order, up to where it ceased to tell.
    pub fn asked(&self) -> &[Asked]
        ensures { IfSome (spawner_asked self.now) (λ asked. result.now ≡ asked) }
    {
        &self.asked
    }

    fn child_of(&self, order: &StartOrder) -> Child
        ensures { result ≡ child_of self.now order.now }
    {
        let last = self.looks.made.saturating_add(u64::from(self.lag));
        Child {
            serial: order.serial,
            pre: order.pre,
            killed: false,
            due: last.saturating_add(1),
        }
    }
}

impl Spawner for MemSpawner {
    ghost use Rattle.wm_outside.specs.MemSpawner.{spawner_children, spawner_lag, spawner_starts, spawner_kills, spawner_looks, spawner_faults, spawner_asked, spawner_told, spawner_out, spawner_reporting, spawner_awaited, child_of};
    ghost use Rattle.wm_outside.specs.Reporting.{reporting_among};
    ghost use Rattle.wm_traits.specs.Cause.{raised};
    ghost use Rattle.wm_traits.specs.Told.{told_with_out};

    ghost misses = { λ s. (spawner_starts s).failed };

    ghost faults = { spawner_faults };

    ghost asked = { spawner_asked };

    ghost out = { spawner_out };

    ghost told = { spawner_told };

    ghost reporting = { spawner_reporting };

    ghost awaited = { spawner_awaited };

    fn start(&mut self, order: &StartOrder) -> Result<(), StartFault>
        ensures calls { CountsCall (spawner_starts self.old) (spawner_starts self.new) (start_missed result) }
        ensures started { OnOk result (spawner_children self.new ≡ spawner_children self.old ++ child_of self.old order.now ∷ []) }
        ensures not_started { OnErr result (spawner_children self.new ≡ spawner_children self.old) }
        ensures kills { spawner_kills self.new ≡ spawner_kills self.old }
        ensures looks { spawner_looks self.new ≡ spawner_looks self.old }
        ensures lag { spawner_lag self.new ≡ spawner_lag self.old }

        ensures asked { Grows (spawner_asked self.old) (spawner_asked self.new) (Start order.now ∷ []) }
        ensures began { OnOk result (Grows (spawner_told self.old) (spawner_told self.new) (Began order.now.serial ∷ [])) }
        ensures not_began { IfErr result (λ fault. Grows (spawner_told self.old) (spawner_told self.new) (NotBegan order.now.serial fault ∷ [])) }
        ensures out { OnOk result (Grows (spawner_out self.old) (spawner_out self.new) (order.now.serial ∷ [])) }
        ensures not_out { OnErr result (Grows (spawner_out self.old) (spawner_out self.new) []) }
        ensures cause { HasStartCause (spawner_starts self.old).failed (spawner_starts self.new).failed result }
        ensures awaited { Grows (spawner_awaited self.old) (spawner_awaited self.new) [] }
    {
        let child = self.child_of(order);
        let result = begin(&mut self.starts, &mut self.children, child);
        record_start(&mut self.asked, &mut self.tells, order);
        record_told(
            &mut self.told,
            &mut self.tells,
            &answer(order.serial, result),
        );
        result
    }

    fn kill(&mut self, job: Serial) -> Result<bool, Failed>
        ensures calls { CountsCall (spawner_kills self.old) (spawner_kills self.new) (is_err result) }
        ensures killed { OnOk result (spawner_children self.new ≡ map (marked job) (spawner_children self.old)) }
        ensures err { OnErr result (spawner_children self.new ≡ spawner_children self.old) }
        ensures starts { spawner_starts self.new ≡ spawner_starts self.old }
        ensures looks { spawner_looks self.new ≡ spawner_looks self.old }
        ensures lag { spawner_lag self.new ≡ spawner_lag self.old }

        ensures was_out { IfOk result (λ was_out. IsTrue was_out ↔ Contains (serials (spawner_children self.old)) job) }
        ensures asked { Grows (spawner_asked self.old) (spawner_asked self.new) (Kill job ∷ []) }
        ensures told { Grows (spawner_told self.old) (spawner_told self.new) [] }
        ensures out { Grows (spawner_out self.old) (spawner_out self.new) [] }
        ensures cause { HasCause (spawner_faults self.old) (spawner_faults self.new) result }
        ensures awaited { Grows (spawner_awaited self.old) (spawner_awaited self.new) [] }
    {
        record_asked(&mut self.asked, &mut self.tells, Asked::Kill(job));
        self.kills.count()?;
        Ok(self.children.kill(job))
    }

    fn ended(&mut self) -> Result<Option<Event>, Failed>
        ensures report { IfOk result (λ report. report ≡ report_of (spawner_looks self.new).made (spawner_children self.old)) }
        ensures children { spawner_children self.new ≡ children_after result (spawner_children self.old) }
        ensures calls { CountsCall (spawner_looks self.old) (spawner_looks self.new) (is_err result) }
        ensures starts { spawner_starts self.new ≡ spawner_starts self.old }
        ensures kills { spawner_kills self.new ≡ spawner_kills self.old }
        ensures lag { spawner_lag self.new ≡ spawner_lag self.old }

        ensures none { result ≡ Ok None → IsEmpty (spawner_reporting self.old) }
        ensures was_out { IfEnded result (Contains (serials (spawner_children self.old))) }
        ensures out { Becomes (spawner_out self.old) (spawner_out self.new) (out_after result) }
        ensures told { Grows (spawner_told self.old) (spawner_told self.new) (look_told result) }
        ensures asked { Grows (spawner_asked self.old) (spawner_asked self.new) [] }
        ensures cause { HasCause (spawner_faults self.old) (spawner_faults self.new) result }
        ensures awaited { Grows (spawner_awaited self.old) (spawner_awaited self.new) [] }
    {
        self.looks.count()?;
        let report = self.children.report(self.looks.made);
        self.children.give(&report);
        record_report(&mut self.told, &mut self.tells, &report);
        Ok(report)
    }

    fn wait_ended<W: Wait>(
        &mut self,
        _rt: &W,
        until: Option<Moment>,
    ) -> Result<Option<Event>, Failed>
        ensures report { IfOk result (λ report. report ≡ wait_report (is_some until) (spawner_looks self.new).made (spawner_children self.old)) }
        ensures children { spawner_children self.new ≡ children_after result (spawner_children self.old) }
        ensures calls { CountsCall (spawner_looks self.old) (spawner_looks self.new) (is_err result) }
        ensures starts { spawner_starts self.new ≡ spawner_starts self.old }
        ensures kills { spawner_kills self.new ≡ spawner_kills self.old }
        ensures lag { spawner_lag self.new ≡ spawner_lag self.old }

        ensures none { result ≡ Ok None → until ≡ None → IsEmpty (spawner_out self.old) }
        ensures was_out { IfEnded result (Contains (serials (spawner_children self.old))) }
        ensures out { Becomes (spawner_out self.old) (spawner_out self.new) (out_after result) }
        ensures told { Grows (spawner_told self.old) (spawner_told self.new) (look_told result) }
        ensures asked { Grows (spawner_asked self.old) (spawner_asked self.new) [] }
        ensures cause { HasCause (spawner_faults self.old) (spawner_faults self.new) result }
        ensures awaited { Grows (spawner_awaited self.old) (spawner_awaited self.new) (until ∷ []) }
    {
        record_wait(&mut self.awaited, &mut self.tells, until);
        self.looks.count()?;
        let report = self.children.wait_report(self.looks.made, until.is_some());
        self.children.give(&report);
        record_report(&mut self.told, &mut self.tells, &report);
        Ok(report)
    }

    ghost told_with_out = { λ s. told_with_out s.tells s.told.items (serials s.children) };

    ghost reporting_are_out = { λ s. reporting_among s.tells (raised s.looks.made) s.children };
}
