// The system's clock.
ghost use Rattle.std.specs.Prelude.{◌≡◌, None};
ghost use Rattle.wm_outside.specs.System.{or_last};

use std::rt;
use wm_base::Moment;
use wm_traits::Clock;

// The present moment, where the clock can be read and is in range.
fn present<R: rt::Clock>(rt: &R) -> Option<Moment> {
    let seconds = rt.since_1970().ok()?.as_secs();
    if seconds <= Moment::MAX {
        Some(Moment::new(seconds))
    } else {
        None
    }
}

/// The system's clock. Where it can't be read or is out of range, it gives its last moment, which at first is 0.
#[derive(Drop)]
pub struct SysClock<R: rt::Clock> {
    rt: R,
    last: Moment,
}

impl<R: rt::Clock> SysClock<R> {
    ghost use Rattle.wm_outside.specs.System.{clock_last};

    pub fn new(rt: R) -> SysClock<R>
        ensures { clock_last result ≡ 0 }
    {
        SysClock {
            rt,
            last: Moment::new(0),
        }
    }
}

// The moment that was read, or else the last one.
fn read_or(read: Option<Moment>, last: Moment) -> Moment
    ensures { result ≡ or_last read last }
{
    match read {
        Some(moment) => moment,
        None => last,
    }
}

impl<R: rt::Clock> Clock for SysClock<R> {
    ghost use Rattle.wm_outside.specs.System.{clock_last, or_last};

    ghost coming = { λ _. None };

    fn now(&mut self) -> Moment
        ensures { result ≡ clock_last self.new }
    {
        let read = present(&self.rt);
        self.last = read_or(read, self.last);
        self.last
    }
}
