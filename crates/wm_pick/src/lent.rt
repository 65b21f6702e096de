// The lending of a state's parts, and what is read of them by the jobs that wait and by the tally.
ghost use Rattle.std.specs.Prelude.{◌≡◌, ◌+◌, ◌≤◌, MatchOption};
ghost use Rattle.wm_ordered.specs.declared.waiter.Waiter.{Waiter};

use crate::{Counted, Parts, Tally};
use std::sync::ledger::Ledger;
use wm_base::{Moment, Priority, QName, Steps};
use wm_desc::Objects;
use wm_law::{Job, QNames, SbsList};
use wm_ordered::{Waiter, WaitingJobs};

impl<'a> Parts<'a> {
    ghost use Rattle.wm_law.specs.Choice.{is_held};
    ghost use Rattle.wm_law.specs.Counts.{count_in_sbs, count_from_pre, count_from_queue, count_from_priority, count_by_route};
    ghost use Rattle.wm_pick.specs.NextHeads.{HasNoHead, IsNextHead};
    ghost use Rattle.wm_pick.specs.Parts.{with_parts, waiters};
    ghost use Rattle.wm_pick.specs.Tallied.{hows};
    ghost use Rattle.wm_pick.specs.Tally.{IsTally};

    /// Lends the parts of a state.
    pub fn new(
        objects: &'a Objects,
        jobs: &'a [Job],
        started: &'a SbsList,
        held: &'a QNames,
        waiting: &'a WaitingJobs,
        tally: &'a Tally,
        clock: Moment,
    ) -> Parts<'a>
        requires waiting { waiting.now.items ≡ waiters jobs.now }
        requires due { waiting.now.clock ≡ clock }
        requires counts { IsTally (hows jobs.now) tally.now }
        ensures { result ≡ with_parts objects.now jobs.now started.now held.now clock }
    {
        // For what it tells of places and priorities.
        waiting.len();
        Parts {
            objects,
            jobs,
            started,
            held,
            waiting,
            tally,
            clock,
        }
    }

    /// How many active jobs came into a subsystem.
    pub fn count_in_sbs(&self, sbs: &QName) -> u32
        ensures { result ≡ count_in_sbs sbs.now self.now.jobs }
    {
        self.tally.count(&Counted::Sbs(*sbs))
    }

    /// How many of them came by its prestart entry for a program.
    pub fn count_from_pre(&self, sbs: &QName, pgm: &QName) -> u32
        ensures { result ≡ count_from_pre sbs.now pgm.now self.now.jobs }
    {
        self.tally.count(&Counted::Pre(*sbs, *pgm))
    }

    // Those that came from its entry for a queue.
    pub(crate) fn count_from_queue(&self, sbs: &QName, queue: &QName) -> u32
        ensures { result ≡ count_from_queue sbs.now queue.now self.now.jobs }
    {
        self.tally.count(&Counted::Queue(*sbs, *queue))
    }

    // Those that came from there with a priority.
    pub(crate) fn count_from_priority(&self, sbs: &QName, queue: &QName, pty: Priority) -> u32
        ensures { result ≡ count_from_priority sbs.now queue.now pty self.now.jobs }
    {
        self.tally.count(&Counted::Pty(*sbs, *queue, pty))
    }

    // Those that came through its routing entry of a number.
    pub(crate) fn count_by_route(&self, sbs: &QName, seq: u32) -> u32
        ensures { result ≡ count_by_route sbs.now seq self.now.jobs }
    {
        self.tally.count(&Counted::Route(*sbs, seq))
    }

    pub(crate) fn is_held(&self, queue: &QName) -> bool
        ensures { result ≡ is_held self.now queue.now }
    {
        self.held.contains(queue)
    }

    // The head of the first priority of a queue that has one, from a priority on, by one look.
    pub(crate) fn next_head<L: Ledger>(
        &self,
        queue: &QName,
        pty: Priority,
        steps: &mut Steps<L>,
    ) -> Option<Waiter>
        ensures head { MatchOption result (HasNoHead self.now queue.now pty) (IsNextHead self.now queue.now pty) }
        ensures looks { steps.new ≤ steps.old + 1 }
    {
        if self.is_held(queue) {
            return None;
        }
        self.waiting.next_head(queue, pty, steps)
    }
}
