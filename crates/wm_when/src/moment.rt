// The moment from which on a job may start.
ghost use Rattle.std.specs.Prelude.{◌≡◌, ◌<◌, ◌↔◌, IsTrue};
ghost use Rattle.wm_when.specs.Schedule.{date_in_range, time_in_range};
ghost use Rattle.wm_when.specs.DueRanges.{IsToday, IsDay, IsLocal};
ghost use Rattle.wm_when.specs.Due.{IsOffset, local_time, day_at, second_at, moment_at, due_on, due_of};

use crate::words::{day_from, second_from};
use crate::{DueFault, SchedSpec};
use wm_base::Moment;

const DAY: i64 = 86_400;

/// Whether local time may be that many minutes ahead of UTC: less than a day, before it or behind.
pub fn is_offset(minutes: i32) -> bool
    ensures { IsTrue result ↔ IsOffset minutes }
{
    -1439 <= minutes && minutes <= 1439
}

fn local_time(now: Moment, offset_min: i32) -> i64
    requires { IsOffset offset_min }
    ensures value { result ≡ local_time now offset_min }
    ensures range { IsLocal result }
{
    now.get() as i64 + 60 * i64::from(offset_min)
}

fn day_at(time: i64) -> i64
    requires { IsLocal time }
    ensures value { result ≡ day_at time }
    ensures range { IsToday result }
{
    time.div_euclid(DAY)
}

fn second_at(time: i64) -> u32
    ensures value { result ≡ second_at time }
    ensures range { result < 86400 }
{
    time.rem_euclid(DAY) as u32
}

fn moment_at(day: i64, second: u32, offset_min: i32) -> i64
    requires day { IsDay day }
    requires second { second < 86400 }
    requires offset { IsOffset offset_min }
    ensures { result ≡ moment_at day second offset_min }
{
    DAY * day + i64::from(second) - 60 * i64::from(offset_min)
}

// A day after 9999-12-31 has no moment that is in range.
fn due_on(day: i64, second: u32, now: Moment, offset_min: i32) -> Result<Moment, DueFault>
    requires day { IsDay day }
    requires second { second < 86400 }
    requires offset { IsOffset offset_min }
    ensures { result ≡ due_on day second now offset_min }
{
    let moment = moment_at(day, second, offset_min);
    if moment < 0 || moment > Moment::MAX as i64 {
        return Err(DueFault::OutOfRange);
    }
    if moment < now.get() as i64 {
        return Err(DueFault::Past);
    }
    Ok(Moment::new(moment as u64))
}

/// The moment from which on a job may start: that of the day and the time that the words of a schedule name, as the
/// local time has them that is `offset_min` minutes ahead of UTC.
pub fn due(spec: &SchedSpec, now: Moment, offset_min: i32) -> Result<Moment, DueFault>
    requires offset { IsOffset offset_min }
    requires date { IsTrue (date_in_range spec.now.date) }
    requires time { IsTrue (time_in_range spec.now.time) }
    ensures { result ≡ due_of spec.now now offset_min }
{
    let time = local_time(now, offset_min);
    let present = second_at(time);
    let second = second_from(&spec.time, present);
    let day = day_from(&spec.date, day_at(time), second < present);
    due_on(day, second, now, offset_min)
}
