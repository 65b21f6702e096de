// The seats of a server, one behind another.
ghost use Rattle.std.specs.Prelude.{◌≡◌, ◌++◌, ◌∷◌, [], All, None, OnErr, OnOk};
ghost use Rattle.wm_serve.specs.Seats.{pass_of};

use crate::seat::Seat;
use std::alloc::{AllocError, Global};
use wm_base::NoMemory;
use wm_traits::Keeper;

/// The seats of a server. They can't be dropped while one of them may have a pass: `leave` lets them go.
pub struct Crew<K: Keeper, D, P, C> {
    pub seats: Vec<Seat<K, D, P, C>>,
}

impl<K: Keeper, D, P, C> Crew<K, D, P, C> {
    /// No seats.
    pub fn new(alloc: Global) -> Crew<K, D, P, C>
        ensures { result.seats.items ≡ [] }
    {
        Crew {
            seats: Vec::new(alloc),
        }
    }
}

impl<K: Keeper, D: Drop, P: Drop, C: Drop> Crew<K, D, P, C> {
    /// Adds a seat behind the others. Where there is no memory for it, it is let go.
    pub fn push(&mut self, seat: Seat<K, D, P, C>) -> Result<(), NoMemory>
        requires vacant { pass_of seat ≡ None }
        ensures ok { OnOk result (self.new.seats.items ≡ self.old.seats.items ++ seat ∷ []) }
        ensures err { OnErr result (self.new.seats.items ≡ self.old.seats.items) }
    {
        match self.seats.push(seat) {
            Ok(()) => Ok(()),
            Err(failed) => {
                failed.value.leave();
                Err(AllocError)
            }
        }
    }

    /// Lets the seats go.
    pub fn leave(self)
        requires vacant { All (λ seat. pass_of seat ≡ None) self.seats.items }
    {
        let Crew { mut seats } = self;
        while let Some(seat) = seats.pop() {
            seat.leave();
        }
        seats.destroy_empty();
    }
}
