// Threads that sleep until their tickets are served. No contract speaks of them: a wake that was missed would cost time alone.
use std::array;
use std::sync::Wait;
use std::sync::atomic::{AtomicU64, Ordering};
use std::time::Duration;

// How many groups there are. Tickets that differ by a multiple of it share one, and are woken together.
const GROUPS: usize = 32;

// How many threads sleep in a group or are about to, and how often the group was woken.
#[derive(Drop)]
struct Group {
    sleepers: AtomicU64,
    wakes: AtomicU64,
}

/// The threads that sleep, by their tickets.
#[derive(Drop)]
pub(crate) struct Sleepers {
    groups: [Group; GROUPS],
}

impl Sleepers {
    pub(crate) fn new() -> Sleepers {
        Sleepers {
            groups: array::from_fn(|_| Group {
                sleepers: AtomicU64::new(0),
                wakes: AtomicU64::new(0),
            }),
        }
    }

    fn group(&self, ticket: u64) -> &Group {
        &self.groups[(ticket % GROUPS as u64) as usize]
    }

    /// Counts a thread that is about to sleep, and tells how often its group was woken. The thread then looks once more whether
    /// its ticket is served, and calls `sleep` with both.
    pub(crate) fn announce(&self, ticket: u64) -> u32 {
        let group = self.group(ticket);
        group.sleepers.fetch_add(1, Ordering::SeqCst);
        (group.wakes.load(Ordering::SeqCst) & 0xffff_ffff) as u32
    }

    /// Sleeps where it is to, until the group is woken again or for so long, and counts the thread no more.
    pub(crate) fn sleep<R: Wait>(
        &self,
        rt: &R,
        ticket: u64,
        wakes: u32,
        waits: bool,
        longest: Duration,
    ) {
        let group = self.group(ticket);
        if waits {
            group.wakes.park_timeout(rt, wakes, longest);
        }
        group.sleepers.fetch_sub(1, Ordering::SeqCst);
    }

    /// Wakes those that sleep for this ticket, once it is served.
    pub(crate) fn wake(&self, ticket: u64) {
        let group = self.group(ticket);
        if group.sleepers.load(Ordering::SeqCst) != 0 {
            group.wakes.fetch_add(1, Ordering::SeqCst);
            group.wakes.wake_all();
        }
    }
}
