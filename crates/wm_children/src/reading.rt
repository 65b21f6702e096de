// What a clock told.
ghost use Rattle.std.specs.Prelude.{◌≡◌, ◌↔◌, None, IfSome};
ghost use Rattle.std.specs.Duration.{as_nanos};
ghost use Rattle.wm_children.specs.Waiting.{HasCome, nanos_to_sleep};

use std::rt::Clock;
use std::time::Duration;
use wm_base::Moment;

/// How long a wait sleeps at the most before it asks the clock again, in seconds: where the clock was set forward, or the
/// machine was asleep, the moment is seen so much later at the most.
pub const LONGEST_SLEEP: u64 = 10;

/// The time since 1970 that a clock told. It is made by reading one, and in no other way. A clock that can't be read tells
/// 1970.
#[derive(Clone, Copy)]
pub struct Reading {
    time: Duration,
}

impl Reading {
    /// The reading of no clock yet, as of one that can't be read.
    pub fn none() -> Reading {
        Reading {
            time: Duration::ZERO,
        }
    }

    pub fn of<C: Clock>(clock: &C) -> Reading {
        Reading {
            time: clock.since_1970().unwrap_or(Duration::ZERO),
        }
    }
}

/// How long is still to be slept until the moment: nothing exactly where it has come, else what is left, but at most the
/// longest sleep.
pub fn time_to_sleep(reading: Reading, until: Moment) -> Option<Duration>
    ensures none { (result ≡ None) ↔ HasCome reading until }
    ensures some { IfSome result (λ sleep. as_nanos sleep ≡ nanos_to_sleep reading until) }
{
    let left = Duration::from_secs(until.get()).checked_sub(reading.time)?;
    if left.is_zero() {
        return None;
    }
    if left.as_secs() >= LONGEST_SLEEP {
        return Some(Duration::from_secs(LONGEST_SLEEP));
    }
    Some(left)
}
