// The parts of a state that are shown.
use std::marker::Model;
use wm_desc::Objects;
use wm_jobs::JobTable;
use wm_law::{QNames, SbsList};

/// What is shown, lent by the machine. A contract sees it as a state that has these parts, and else nothing; the jobs and
/// the clock are those of the job table.
#[derive(Drop)]
pub struct Parts<'a> {
    pub(crate) objects: &'a Objects,
    pub(crate) jobs: &'a JobTable,
    pub(crate) started: &'a SbsList,
    pub(crate) held: &'a QNames,
}

impl<'a> Model for Parts<'a> {
    ghost use Rattle.wm_law.specs.declared.state.State.{State};

    ghost Value = { State };

    ghost use Rattle.wm_views.specs.Parts.{with_parts};

    ghost view = { λ p. with_parts p.objects.now p.jobs.now.jobs p.started.now p.held.now p.jobs.now.clock };
}

impl<'a> Parts<'a> {
    ghost use Rattle.std.specs.Prelude.{◌≡◌};
    ghost use Rattle.wm_views.specs.Parts.{with_parts};

    /// Lends the parts of a state.
    pub fn new(
        objects: &'a Objects,
        jobs: &'a JobTable,
        started: &'a SbsList,
        held: &'a QNames,
    ) -> Parts<'a>
        ensures { result ≡ with_parts objects.now jobs.now.jobs started.now held.now jobs.now.clock }
    {
        Parts {
            objects,
            jobs,
            started,
            held,
        }
    }
}
