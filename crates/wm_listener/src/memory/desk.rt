// A desk at a listener in memory.
ghost use Rattle.std.specs.Prelude.{◌≡◌, [], Some, None, IsSome};
ghost use Rattle.wm_traits.specs.Cause.{raised};
ghost use Rattle.wm_traits.specs.Told.{Stays};

use crate::Desk;
use std::alloc::Global;
use std::snapshot::Snapshot;
use wm_outside::{MemSink, MemSource};

/// A connection that was given back.
#[derive(Drop)]
pub struct Returned {
    pub given: Snapshot<MemSource>,
    pub input: MemSource,
    pub output: MemSink,
}

/// A desk that keeps the connections that were given back. Where memory is wanting to keep one, or one's sink doesn't tell, it
/// ceases to tell them, and goes on.
#[derive(Drop)]
pub struct MemDesk {
    pub(crate) hand: Option<Snapshot<MemSource>>,
    pub(crate) had: Vec<Returned>,
    pub(crate) tells: bool,
    pub(crate) faults: u64,
    pub(crate) dries: u64,
}

impl MemDesk {
    ghost use Rattle.wm_listener.specs.Had.{GivesBack};
    ghost use Rattle.wm_listener.specs.Memory.{desk_dries, desk_faults, desk_hand, desk_had, desk_returned};
    ghost use Rattle.wm_outside.specs.Memory.{source_left, source_calls, sink_calls, sink_written};

    /// A desk that has had nothing.
    pub fn new(alloc: Global) -> MemDesk
        ensures hand { desk_hand result ≡ None }
        ensures had { desk_had result ≡ Some [] }
        ensures faults { desk_faults result ≡ 0 }
        ensures dries { desk_dries result ≡ 0 }
    {
        MemDesk {
            hand: None,
            had: Vec::new(alloc),
            tells: true,
            faults: 0,
            dries: 0,
        }
    }

    /// The connections that were given back, in order, up to where it ceased to keep them.
    pub fn had(&self) -> &[Returned]
        ensures { result.now ≡ desk_returned self.now }
    {
        &self.had
    }

    // A connection comes into the hand.
    pub(crate) fn take(&mut self, input: &MemSource)
        ensures hand { desk_hand self.new ≡ Some (Some (source_left input.now)) }
        ensures had { desk_had self.new ≡ desk_had self.old }
        ensures faults { self.new.faults ≡ self.old.faults }
        ensures dries { self.new.dries ≡ self.old.dries }
    {
        self.hand = Some(Snapshot::of(input));
    }

    // The connection in hand is put with those that it has had.
    pub(crate) fn put(&mut self, input: MemSource, output: MemSink)
        requires holds { IsSome (desk_hand self.old) }
        ensures hand { desk_hand self.new ≡ None }
        ensures had { GivesBack (desk_had self.old) (desk_had self.new) (desk_hand self.old) (Some (source_left input)) (sink_written output) (source_calls input).failed (sink_calls output).failed }
        ensures faults { self.new.faults ≡ self.old.faults }
        ensures dries { self.new.dries ≡ self.old.dries }
    {
        let Some(given) = self.hand.take() else {
            return;
        };
        let returned = Returned {
            given,
            input,
            output,
        };
        if self.had.push(returned).is_err() {
            self.tells = false;
        }
    }
}

impl Desk for MemDesk {
    ghost use Rattle.wm_listener.specs.Memory.{desk_hand, desk_had};

    ghost faults = { λ d. d.faults };

    ghost dries = { λ d. d.dries };

    ghost hand = { desk_hand };

    ghost had = { desk_had };
}
