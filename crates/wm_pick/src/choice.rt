// Which job starts next: the entries of a subsystem in the order of their numbers, and at each the heads of its queue.
//
// Of those that wait and may start by now, the head of each queue and priority is at hand, and so are the counts of active
// jobs. An entry is passed over where another subsystem holds its queue, where the queue is held, or where MAXACT is reached.
// Else the head of each priority is looked at, from 1 on, and passed over where that priority's MAXPTY is reached: at most nine
// looks an entry, however many jobs wait. The rule takes the least of all jobs that are ready and allowed; that the heads have
// it is the law `heads_are_first`: whether a job is passed over hangs on its queue and its priority alone.
ghost use Rattle.std.specs.Prelude.{◌≡◌};
ghost use Rattle.std.specs.Ordering.{nat_cmp};
ghost use Rattle.wm_desc.specs.Sorted.{IsSortedOnce};
ghost use Rattle.wm_desc.specs.Table.{object_named};
ghost use Rattle.wm_law.specs.Choice.{better, entry_for, maxpty_of};
ghost use Rattle.wm_pick.specs.Heads.{is_same_entry, queues_in};
ghost use Rattle.wm_pick.specs.Parts.{candidate_waiting};

use crate::Parts;
use std::sync::ledger::Ledger;
use wm_base::{Limit, Priority, QName, Steps};
use wm_desc::{Objects, QueueEntry, Sbsd};
use wm_law::{Candidate, Rank, Sbs, SbsPhase};
use wm_ordered::Waiter;

// The one of two that stands before the other, the first where neither does.
fn better(best: Option<Candidate>, other: Option<Candidate>) -> Option<Candidate>
    ensures { result ≡ better best other }
{
    match (best, other) {
        (best, None) => best,
        (None, other) => other,
        (Some(b), Some(c)) => { if c.rank < b.rank { Some(c) } else { Some(b) } }
    }
}

// An entry's limit for jobs of a priority.
fn maxpty_of(entry: &QueueEntry, pty: Priority) -> Limit
    ensures { result ≡ maxpty_of entry.now pty }
{
    entry.maxpty[usize::from(pty.get()) - 1]
}

// Whether the entry that its description has for its queue is this one.
fn is_own_entry(description: &Sbsd, entry: &QueueEntry) -> bool
    ensures { result ≡ is_same_entry entry.now (entry_for entry.now.jobq description.now) }
{
    match description.queues.for_queue(&entry.jobq) {
        None => false,
        Some(found) => found.seq == entry.seq,
    }
}

// The queue entries of a subsystem's description.
fn queues_of<'o>(objects: &'o Objects, sbs: &QName) -> &'o [QueueEntry]
    ensures entries { result.now ≡ queues_in (object_named sbs.now objects.now.sbsds) }
    ensures sorted { IsSortedOnce (λ e. e.seq) nat_cmp result.now }
{
    match objects.sbsds.object(sbs) {
        None => &[],
        Some(description) => description.queues.as_slice(),
    }
}

// What a job that waits is as the candidate of a subsystem's entry.
fn candidate_waiting(sbs: &QName, entry: &QueueEntry, waiter: &Waiter) -> Candidate
    ensures { result ≡ candidate_waiting sbs.now entry.now waiter.now }
{
    Candidate {
        rank: Rank {
            sbs: sbs.name,
            seq: entry.seq,
            pty: waiter.pty,
            place: waiter.place,
        },
        sbs: *sbs,
        jobq: entry.jobq,
        serial: waiter.serial,
    }
}

impl<'a> Parts<'a> {
    ghost use Rattle.std.specs.Prelude.{◌≡◌, ◌+◌, ◌*◌, ◌≤◌, length, option_copied};
    ghost use Rattle.wm_law.specs.Choice.{has_entry, holder, first, next};
    ghost use Rattle.wm_pick.specs.NextHeads.{IsHead};
    ghost use Rattle.wm_pick.specs.Heads.{started_named, takes_jobs, is_holder, is_open, head_at, entry_head, open_head, first_head, first_by_heads, queues_of, IsOrderly};

    fn has_entry(&self, queue: &QName, sbs: &Sbs) -> bool
        ensures { result ≡ has_entry self.now queue.now sbs.now }
    {
        match self.objects.sbsds.object(&sbs.sbsd) {
            None => false,
            Some(description) => description.queues.for_queue(queue).is_some(),
        }
    }

    /// The holder of a queue: the first started subsystem whose description has an entry for it.
    pub fn holder(&self, queue: &QName) -> Option<&Sbs>
        ensures { option_copied result ≡ holder self.now queue.now }
    {
        self.started
            .as_slice()
            .iter()
            .find(|sbs| self.has_entry(queue, sbs))
    }

    // The first started subsystem of a name.
    fn started_named(&self, sbs: &QName) -> Option<&Sbs>
        ensures { option_copied result ≡ started_named sbs.now self.now.started }
    {
        self.started.as_slice().iter().find(|b| b.sbsd == *sbs)
    }

    // The queue entries of a subsystem's description: what is lent is orderly there.
    fn queues_of(&self, sbs: &QName) -> &[QueueEntry]
        ensures entries { result.now ≡ queues_of self.now sbs.now }
        ensures orderly { IsOrderly self.now sbs.now }
    {
        queues_of(self.objects, sbs)
    }

    fn takes_jobs(&self, sbs: &Sbs, description: &Sbsd) -> bool
        ensures { result ≡ takes_jobs self.now sbs.now description.now }
    {
        matches!(sbs.phase, SbsPhase::Active)
            && description
                .maxjobs
                .admits(self.count_in_sbs(&sbs.sbsd) as usize)
    }

    fn is_holder(&self, sbs: &QName, queue: &QName) -> bool
        ensures { result ≡ is_holder sbs.now (holder self.now queue.now) }
    {
        match self.holder(queue) {
            None => false,
            Some(holder) => holder.sbsd == *sbs,
        }
    }

    fn is_open(&self, sbs: &QName, description: &Sbsd, entry: &QueueEntry) -> bool
        ensures { result ≡ is_open self.now sbs.now description.now entry.now }
    {
        self.is_holder(sbs, &entry.jobq)
            && is_own_entry(description, entry)
            && entry
                .maxact
                .admits(self.count_from_queue(sbs, &entry.jobq) as usize)
    }

    // What the head of a priority is as a candidate of an entry, where the count of that priority is below its limit.
    fn head_at(&self, sbs: &QName, entry: &QueueEntry, waiter: &Waiter) -> Option<Candidate>
        requires { IsHead self.now entry.now.jobq waiter.now }
        ensures { result ≡ head_at self.now sbs.now entry.now waiter.now.pty }
    {
        let pty = waiter.pty;
        let count = self.count_from_priority(sbs, &entry.jobq, pty) as usize;
        if !maxpty_of(entry, pty).admits(count) {
            return None;
        }
        Some(candidate_waiting(sbs, entry, waiter))
    }

    // The head of an entry: that of the first priority that is below its limit and has one. A priority without a head isn't
    // looked at.
    fn entry_head<L: Ledger>(
        &self,
        sbs: &QName,
        entry: &QueueEntry,
        steps: &mut Steps<L>,
    ) -> Option<Candidate>
        ensures head { result ≡ entry_head self.now sbs.now entry.now }
        ensures looks { steps.new ≤ steps.old + 9 }
    {
        let mut pty = 1;
        while pty < 10 {
            let Some(waiter) = self.next_head(&entry.jobq, Priority::new(pty), steps) else {
                return None;
            };
            let at = waiter.pty.get();
            let head = self.head_at(sbs, entry, &waiter);
            if head.is_some() {
                return head;
            }
            pty = at + 1;
        }
        None
    }

    fn open_head<L: Ledger>(
        &self,
        sbs: &QName,
        description: &Sbsd,
        entry: &QueueEntry,
        steps: &mut Steps<L>,
    ) -> Option<Candidate>
        ensures head { result ≡ open_head self.now sbs.now description.now entry.now }
        ensures looks { steps.new ≤ steps.old + 9 }
    {
        if !self.is_open(sbs, description, entry) {
            return None;
        }
        self.entry_head(sbs, entry, steps)
    }

    // The first open entry's head, in the order of the entries' numbers.
    fn first_head<L: Ledger>(
        &self,
        sbs: &QName,
        description: &Sbsd,
        steps: &mut Steps<L>,
    ) -> Option<Candidate>
        ensures head { result ≡ first_head self.now sbs.now description.now }
        ensures looks { steps.new ≤ steps.old + 9 * length description.now.queues }
    {
        for entry in description.queues.as_slice() {
            let head = self.open_head(sbs, description, entry, steps);
            if head.is_some() {
                return head;
            }
        }
        None
    }

    fn first_by_heads<L: Ledger>(&self, sbs: &QName, steps: &mut Steps<L>) -> Option<Candidate>
        ensures head { result ≡ first_by_heads self.now sbs.now }
        ensures looks { steps.new ≤ steps.old + 9 * length (queues_of self.now sbs.now) }
    {
        let sbs = self.started_named(sbs)?;
        let description = self.objects.sbsds.object(&sbs.sbsd)?;
        if !self.takes_jobs(sbs, description) {
            return None;
        }
        self.first_head(&sbs.sbsd, description, steps)
    }

    /// The first of a subsystem: ready and allowed, and no other such job of it stands before it. It takes at most nine
    /// looks at a head for each queue entry of the subsystem, and goes through no jobs.
    pub fn first<L: Ledger>(&self, sbs: &QName, steps: &mut Steps<L>) -> Option<Candidate>
        ensures first { result ≡ first self.now sbs.now }
        ensures looks { steps.new ≤ steps.old + 9 * length (queues_of self.now sbs.now) }
    {
        // For what it tells of the order of entries and places.
        self.queues_of(sbs);
        self.first_by_heads(sbs, steps)
    }

    /// The job that starts next: the first of the started subsystem of least simple name that has one.
    pub fn next<L: Ledger>(&self, steps: &mut Steps<L>) -> Option<Candidate>
        ensures { result ≡ next self.now }
    {
        let mut best = None;
        for sbs in self.started.as_slice() {
            best = better(best, self.first(&sbs.sbsd, steps));
        }
        best
    }
}
