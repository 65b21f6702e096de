// Whether values keep their ranges. These are this project's own, after the CL reference.
ghost use Rattle.std.specs.Prelude.{◌≡◌};
ghost use Rattle.std.specs.List.{list_all};
ghost use Rattle.wm_desc.specs.Ranges.{limit_within, path_in_range};

use crate::{Cmp, Jobd, PreEntry, QueueEntry, RouteEntry};
use wm_base::{Limit, Text};

fn limit_within(limit: &Limit, low: u32, high: u32) -> bool
    ensures { result ≡ limit_within low high limit.now }
{
    match limit {
        Limit::NoMax => true,
        Limit::Most(most) => (low..=high).contains(most),
    }
}

/// Whether a program's path has 1 to 255 characters, the first of them a slash.
pub fn path_in_range(path: &Text) -> bool
    ensures { result ≡ path_in_range path.now }
{
    (1..=255).contains(&path.len()) && path.as_bytes().starts_with(b"/".as_slice())
}

fn maxpty_in_range(maxpty: &[Limit]) -> bool
    ensures { result ≡ list_all (limit_within 0 99) maxpty.now }
{
    maxpty.iter().all(|most| limit_within(most, 0, 99))
}

impl Jobd {
    ghost use Rattle.std.specs.Prelude.{◌≡◌};
    ghost use Rattle.wm_desc.specs.Ranges.{jobd_in_range};

    /// Whether the routing data have 1 to 80 characters, and the request at most 1,000.
    pub fn is_in_range(&self) -> bool
        ensures { result ≡ jobd_in_range self.now }
    {
        let request_fits = match &self.rqsdta {
            None => true,
            Some(request) => request.len() <= 1000,
        };
        (1..=80).contains(&self.rtgdta.len()) && request_fits
    }
}

impl QueueEntry {
    ghost use Rattle.std.specs.Prelude.{◌≡◌};
    ghost use Rattle.wm_desc.specs.Ranges.{queue_in_range};

    /// Whether the sequence number is 1 to 9999, MAXACT is 0 to 1000 or *NOMAX, and each MAXPTY is 0 to 99 or *NOMAX.
    pub fn is_in_range(&self) -> bool
        ensures { result ≡ queue_in_range self.now }
    {
        (1..=9999).contains(&self.seq)
            && limit_within(&self.maxact, 0, 1000)
            && maxpty_in_range(&self.maxpty)
    }
}

impl Cmp {
    ghost use Rattle.std.specs.Prelude.{◌≡◌};
    ghost use Rattle.wm_desc.specs.Ranges.{cmp_in_range};

    /// Whether it is *ANY, or a value of 1 to 80 characters that ends at the 80th place of the routing data at the
    /// latest.
    pub fn is_in_range(&self) -> bool
        ensures { result ≡ cmp_in_range self.now }
    {
        match self {
            Cmp::Any => true,
            Cmp::Val { value, start } => {
                (1..=80).contains(&value.len())
                    && (1..=80).contains(start)
                    && *start as usize + value.len() <= 81
            }
        }
    }
}

impl RouteEntry {
    ghost use Rattle.std.specs.Prelude.{◌≡◌};
    ghost use Rattle.wm_desc.specs.Ranges.{route_in_range};

    /// Whether the sequence number is 1 to 9999, the compare value is in range, MAXACT is 0 to 1000 or *NOMAX, and
    /// POOLID is 1 to 10.
    pub fn is_in_range(&self) -> bool
        ensures { result ≡ route_in_range self.now }
    {
        (1..=9999).contains(&self.seq)
            && self.cmp.is_in_range()
            && limit_within(&self.maxact, 0, 1000)
            && (1..=10).contains(&self.poolid)
    }
}

impl PreEntry {
    ghost use Rattle.std.specs.Prelude.{◌≡◌};
    ghost use Rattle.wm_desc.specs.Ranges.{pre_in_range};

    /// Whether INLJOBS and THRESHOLD are 1 to 9999, ADLJOBS is at most 999, MAXJOBS is 1 to 9999 or *NOMAX, MAXUSE is
    /// 1 to 1000 or *NOMAX, and POOLID is 1 to 10. How they stand to one another is another question.
    pub fn is_in_range(&self) -> bool
        ensures { result ≡ pre_in_range self.now }
    {
        (1..=9999).contains(&self.inljobs)
            && (1..=9999).contains(&self.threshold)
            && self.adljobs <= 999
            && limit_within(&self.maxjobs, 1, 9999)
            && limit_within(&self.maxuse, 1, 1000)
            && (1..=10).contains(&self.poolid)
    }
}
