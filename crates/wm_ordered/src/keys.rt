// What the jobs that wait are found by.
ghost use Rattle.std.specs.Prelude.{refl, Some};
ghost use Rattle.std.specs.Cmp.{po};
ghost use Rattle.wm_ordered.specs.SpotOrder.{spot_order, spot_total, spot_ties};

use crate::Waiter;
use std::cmp::Ordering;
use wm_base::{Moment, Priority, QName, Serial};

/// Where a job stands: by queue, then priority, then place.
#[derive(Clone, Copy, PartialEq, Eq)]
pub(crate) struct Spot {
    pub(crate) jobq: QName,
    pub(crate) pty: Priority,
    pub(crate) place: u64,
}

impl PartialOrd for Spot {
    ghost partial_cmp = { λ a b. Some (spot_order a b) };

    ghost laws = { po spot_total spot_ties };

    fn partial_cmp(&self, other: &Spot) -> Option<Ordering> {
        Some(self.cmp(other))
    }
}

impl Ord for Spot {
    ghost cmp = { spot_order };

    ghost total = { spot_total };

    ghost matches_partial_cmp = { λ a b. refl };

    ghost matches_eq = { spot_ties };

    // Most spots that are compared are of one queue, and that two queues are one is told sooner than their order.
    fn cmp(&self, other: &Spot) -> Ordering {
        if self.jobq == other.jobq {
            self.pty.cmp(&other.pty).then(self.place.cmp(&other.place))
        } else {
            self.jobq.cmp(&other.jobq)
        }
    }
}

/// When a job becomes due: by moment, then serial.
#[derive(Clone, Copy, PartialEq, Eq, PartialOrd, Ord)]
pub(crate) struct Rise {
    pub(crate) due: Moment,
    pub(crate) serial: Serial,
}

impl Spot {
    ghost use Rattle.std.specs.Prelude.{◌≡◌};
    ghost use Rattle.wm_desc.specs.Table.{same_qname};
    ghost use Rattle.wm_ordered.specs.Keys.{spot_of};

    pub(crate) fn of(waiter: &Waiter) -> Spot
        ensures { result ≡ spot_of waiter.now }
    {
        Spot {
            jobq: waiter.jobq,
            pty: waiter.pty,
            place: waiter.place,
        }
    }

    /// Whether it is on a queue.
    pub(crate) fn is_on(&self, jobq: &QName) -> bool
        ensures { result ≡ same_qname self.now.jobq jobq.now }
    {
        self.jobq == *jobq
    }
}

impl Rise {
    ghost use Rattle.std.specs.Prelude.{◌≡◌};
    ghost use Rattle.wm_ordered.specs.Keys.{rise_of};

    pub(crate) fn of(waiter: &Waiter) -> Rise
        ensures { result ≡ rise_of waiter.now }
    {
        Rise {
            due: waiter.due,
            serial: waiter.serial,
        }
    }
}
