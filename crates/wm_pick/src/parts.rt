// The parts of a state that a choice looks at.
use crate::Tally;
use std::marker::Model;
use wm_base::Moment;
use wm_desc::Objects;
use wm_law::{Job, QNames, SbsList};
use wm_ordered::WaitingJobs;

/// What a choice and a launch look at, lent by the machine. A contract sees it as a state that has these parts, and
/// else nothing. Its waiting jobs and its tally are those of its jobs, so that neither a choice nor a launch goes
/// through the jobs.
#[derive(Drop)]
pub struct Parts<'a> {
    pub(crate) objects: &'a Objects,
    pub(crate) jobs: &'a [Job],
    pub(crate) started: &'a SbsList,
    pub(crate) held: &'a QNames,
    pub(crate) waiting: &'a WaitingJobs,
    pub(crate) tally: &'a Tally,
    pub(crate) clock: Moment,
}

impl<'a> Model for Parts<'a> {
    ghost use Rattle.wm_law.specs.declared.state.State.{State};

    ghost Value = { State };

    ghost use Rattle.wm_pick.specs.Parts.{with_parts, IsLent};

    ghost view = { λ p. with_parts p.objects.now p.jobs.now p.started.now p.held.now p.clock };

    ghost invariant = { λ p. IsLent p.jobs.now p.clock p.waiting.now p.tally.now };
}
