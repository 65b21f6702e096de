// What is kept of the state before a step, so that the step can be taken back.
use std::alloc::Global;
use wm_law::{Evokes, ListOf, Power, SbsList, Stops};
use wm_making::Saved;

/// What is kept of the state before a step beside its jobs, and whether the step can be taken back.
#[derive(Drop)]
pub struct Mark {
    pub(crate) saved: Saved,
    pub(crate) started: SbsList,
    pub(crate) stopped: Stops,
    pub(crate) evokes: Evokes,
    pub(crate) next_number: u32,
    pub(crate) power: Power,
    pub(crate) undoable: bool,
}

impl Mark {
    ghost use Rattle.std.specs.Prelude.{◌≡◌, false};

    /// Nothing is kept, since there was no step.
    pub(crate) fn new(alloc: Global) -> Mark
        ensures { result.undoable ≡ false }
    {
        Mark {
            saved: Saved::Nothing,
            started: ListOf::new(alloc),
            stopped: ListOf::new(alloc),
            evokes: ListOf::new(alloc),
            next_number: 0,
            power: Power::On,
            undoable: false,
        }
    }
}
