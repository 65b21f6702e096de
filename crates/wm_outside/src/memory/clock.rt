// A clock in memory.
ghost use Rattle.std.specs.Prelude.{◌≡◌, ◌≤◌, ◌+◌, ℕ, Some, min, IfSome, IsSome};

use wm_base::Moment;
use wm_traits::Clock;

/// A clock that goes on by the same number of seconds at each call, up to the greatest moment.
#[derive(Drop)]
pub struct MemClock {
    next: Moment,
    step: u64,
}

impl MemClock {
    ghost use Rattle.wm_outside.specs.Memory.{clock_coming, clock_step};

    /// A clock that gives `first` first, and `step` seconds more at each call.
    pub fn new(first: Moment, step: u64) -> MemClock
        ensures coming { clock_coming result ≡ first }
        ensures step { clock_step result ≡ step }
    {
        MemClock { next: first, step }
    }
}

impl Clock for MemClock {
    ghost use Rattle.wm_outside.specs.Memory.{clock_coming, clock_step};

    ghost coming = { λ c. Some (clock_coming c) };

    fn now(&mut self) -> Moment
        ensures gives { result ≡ clock_coming self.old }
        ensures goes_on { clock_coming self.new ≡ min (result + clock_step self.old) 253402214399 }
        ensures step { clock_step self.new ≡ clock_step self.old }
    {
        let moment = self.next;
        let next = moment.get().saturating_add(self.step).min(Moment::MAX);
        self.next = Moment::new(next);
        moment
    }
}
