// The children of a spawner in memory.
ghost use Rattle.std.specs.Prelude.{◌≡◌, ◌↔◌, ◌==◌, not, List, [], ◌∷◌, ◌++◌, map, find, position, Option, Some, None, Ok, IsTrue, OnOk, OnErr, Contains};
ghost use Rattle.wm_traits.specs.Spawner.{IfEnded, out_after};
ghost use Rattle.wm_outside.specs.declared.memory.children.Child.{Child};
ghost use Rattle.wm_outside.specs.Children.{serials, killed_ones, due_ones, longest_out, lesser, least_of, report_of, awaited_of, wait_report, marked, without, children_after};

use std::alloc::Global;
use std::marker::Model;
use wm_base::{Event, Exit, NoMemory, Serial};

/// A child that is out.
#[derive(Clone, Copy)]
pub struct Child {
    pub serial: Serial,
    /// Whether it is a prestart job, which no look ends.
    pub pre: bool,
    pub killed: bool,
    /// The number of the look from which on it has ended by itself.
    pub due: u64,
}

/// The children that are out, the longest out first.
#[derive(Drop)]
pub struct Children {
    items: Vec<Child>,
}

impl Model for Children {
    ghost use Rattle.std.specs.Prelude.{List};
    ghost use Rattle.wm_outside.specs.declared.memory.children.Child.{Child};

    ghost Value = { List Child };

    ghost view = { λ c. c.items.items };
}

fn lesser(least: Option<Serial>, serial: Serial) -> Option<Serial>
    ensures { result ≡ lesser least serial }
{
    match least {
        None => Some(serial),
        Some(least) => Some(least.min(serial)),
    }
}

fn least_killed(children: &[Child]) -> Option<Serial>
    ensures { result ≡ least_of (killed_ones children.now) }
{
    children
        .iter()
        .filter(|child| child.killed)
        .map(|child| child.serial)
        .fold(None, lesser)
}

fn least_due(children: &[Child], look: u64) -> Option<Serial>
    ensures { result ≡ least_of (due_ones look children.now) }
{
    children
        .iter()
        .filter(|child| !child.pre && child.due <= look)
        .map(|child| child.serial)
        .fold(None, lesser)
}

fn first_not_prestart(children: &[Child]) -> Option<Child>
    ensures { result ≡ find (λ child. not child.pre) children.now }
{
    children.iter().copied().find(|child| !child.pre)
}

fn longest_out(children: &[Child]) -> Option<Serial>
    ensures { result ≡ longest_out children.now }
{
    match first_not_prestart(children) {
        Some(child) => Some(child.serial),
        None => Some(children.first()?.serial),
    }
}

fn report(children: &[Child], look: u64) -> Option<Event>
    ensures { result ≡ report_of look children.now }
{
    if let Some(serial) = least_killed(children) {
        return Some(Event::Ended(serial, Exit::Killed));
    }
    let serial = least_due(children, look)?;
    Some(Event::Ended(serial, Exit::Code(0)))
}

fn awaited(children: &[Child]) -> Option<Event>
    ensures { result ≡ awaited_of children.now }
{
    if let Some(serial) = least_killed(children) {
        return Some(Event::Ended(serial, Exit::Killed));
    }
    let serial = longest_out(children)?;
    Some(Event::Ended(serial, Exit::Code(0)))
}

fn wait_report(children: &[Child], look: u64, has_moment: bool) -> Option<Event>
    ensures { result ≡ wait_report has_moment look children.now }
{
    if has_moment {
        report(children, look)
    } else {
        awaited(children)
    }
}

fn is_out(children: &[Child], job: Serial) -> bool
    ensures { IsTrue result ↔ Contains (serials children.now) job }
{
    children
        .iter()
        .map(|child| child.serial)
        .any(|serial| serial == job)
}

fn mark(children: &mut [Child], job: Serial)
    ensures { children.new ≡ map (marked job) children.old }
{
    for child in children.iter_mut() {
        child.killed |= child.serial == job;
    }
}

fn place_of(children: &[Child], job: Serial) -> Option<usize>
    ensures { result ≡ position (λ child. child.serial == job) children.now }
{
    children.iter().position(|child| child.serial == job)
}

#[tactic(auto, using(crate::proofs::Removal::removed_first, crate::proofs::Removal::none_removed))]
fn take_out(children: &mut Vec<Child>, job: Serial)
    ensures { children.new.items ≡ without job children.old.items }
{
    if let Some(at) = place_of(children, job) {
        children.remove(at);
    }
}

impl Children {
    pub fn new(alloc: Global) -> Children
        ensures { result ≡ [] }
    {
        Children {
            items: Vec::new(alloc),
        }
    }

    pub fn push(&mut self, child: Child) -> Result<(), NoMemory>
        ensures ok { OnOk result (self.new ≡ self.old ++ child ∷ []) }
        ensures err { OnErr result (self.new ≡ self.old) }
    {
        self.items.push(child)?;
        Ok(())
    }

    /// The report that the look of this number gives.
    #[tactic(auto, using(crate::proofs::Reports::report_is_out, crate::proofs::Reports::none_reports))]
    pub fn report(&self, look: u64) -> Option<Event>
        ensures report { result ≡ report_of look self.now }
        ensures is_out { IfEnded (Ok result) (Contains (serials self.now)) }
        ensures none { result ≡ None → killed_ones self.now ++ due_ones look self.now ≡ [] }
    {
        report(&self.items, look)
    }

    /// The report that a wait gives which is the look of this number. With a moment it is one look.
    #[tactic(auto, using(crate::proofs::Reports::wait_report_is_out, crate::proofs::Reports::none_awaited))]
    pub fn wait_report(&self, look: u64, has_moment: bool) -> Option<Event>
        ensures report { result ≡ wait_report has_moment look self.now }
        ensures is_out { IfEnded (Ok result) (Contains (serials self.now)) }
        ensures none { result ≡ None → IsTrue (not has_moment) → serials self.now ≡ [] }
    {
        wait_report(&self.items, look, has_moment)
    }

    /// Kills a job's child, and answers whether it is out.
    #[tactic(auto, using(crate::proofs::Reports::serials_marked))]
    pub fn kill(&mut self, job: Serial) -> bool
        ensures was_out { IsTrue result ↔ Contains (serials self.old) job }
        ensures killed { self.new ≡ map (marked job) self.old }
        ensures out { serials self.new ≡ serials self.old }
    {
        let was_out = is_out(&self.items, job);
        mark(&mut self.items, job);
        was_out
    }

    /// Takes the child out whose end is reported.
    #[tactic(auto, using(crate::proofs::Reports::serials_after, crate::proofs::Reports::serials_without))]
    pub fn give(&mut self, report: &Option<Event>)
        ensures children { self.new ≡ children_after (Ok report.now) self.old }
        ensures out { serials self.new ≡ out_after (Ok report.now) (serials self.old) }
    {
        if let Some(Event::Ended(serial, _)) = report {
            take_out(&mut self.items, *serial);
        }
    }
}
