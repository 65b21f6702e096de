// How many jobs are made for a prestart entry.
ghost use Rattle.std.specs.Prelude.{◌≡◌, ◌<◌};
ghost use Rattle.wm_base.specs.declared.qname.QName.{QName};
ghost use Rattle.wm_desc.specs.declared.description.Sbsd.{Sbsd};
ghost use Rattle.wm_law.specs.declared.state.State.{State};
ghost use Rattle.wm_law.specs.Prestart.{left_by, least_multiple, replenish, room};
ghost use Rattle.wm_indexes.specs.Supply.{IsSupply};

use crate::bounds::Supply;
use wm_base::Limit;
use wm_desc::PreEntry;

// Of so many jobs as many as a limit leaves above a count.
fn left_by(limit: &Limit, count: u32, jobs: u32) -> u32
    ensures { result ≡ left_by limit.now count jobs }
{
    match limit {
        Limit::NoMax => jobs,
        Limit::Most(most) => jobs.min(most.saturating_sub(count)),
    }
}

// The least multiple of a number that is at least another.
fn least_multiple(step: u32, least: u32) -> u64
    requires { 0 < step }
    ensures { result ≡ least_multiple step least }
{
    let step = u64::from(step);
    (u64::from(least) + (step - 1)) / step * step
}

/// Of so many jobs as many as can be made for an entry: MAXJOBS of the entry and of its subsystem, less the active jobs of
/// each, and the numbers that are left bound them.
pub fn room(entry: &PreEntry, supply: &Supply, jobs: u32) -> u32
    ensures { (s : State) (sbs : QName) (d : Sbsd) → IsSupply s sbs d entry.now supply.now → result ≡ room s sbs d entry.now jobs }
{
    let numbers = jobs.min(supply.numbers_left);
    let in_entry = left_by(&entry.maxjobs, supply.count, numbers);
    left_by(&supply.sbs_maxjobs, supply.sbs_count, in_entry)
}

/// How many jobs settling makes for an entry: none where it is stopped, where ADLJOBS is 0, or where THRESHOLD of its jobs are
/// available. Else the least multiple of ADLJOBS that brings them to THRESHOLD, as far as there is room.
pub fn replenish(entry: &PreEntry, supply: &Supply) -> u32
    ensures { (s : State) (sbs : QName) (d : Sbsd) → IsSupply s sbs d entry.now supply.now → result ≡ replenish s sbs d entry.now }
{
    if supply.stopped || supply.available >= entry.threshold || entry.adljobs == 0 {
        return 0;
    }
    let lacking = least_multiple(entry.adljobs, entry.threshold - supply.available);
    let jobs = lacking.min(u64::from(supply.numbers_left));
    room(entry, supply, jobs as u32)
}
