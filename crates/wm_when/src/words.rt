// The days and the times that the words of a schedule name.
ghost use Rattle.std.specs.Prelude.{◌≡◌, ◌<◌, IsTrue};
ghost use Rattle.wm_when.specs.Schedule.{within, date_in_range, time_in_range};
ghost use Rattle.wm_when.specs.DueRanges.{IsToday, IsDay};
ghost use Rattle.wm_when.specs.Due.{month_start_from, month_end_from, weekday_from, day_from, second_from};

use crate::days::{day_of_date, days_to, first_of_month, last_of_month, last_of_next_month};
use crate::{DateSpec, TimeSpec};

fn month_start_from(today: i64, past: bool) -> i64
    requires { IsToday today }
    ensures value { result ≡ month_start_from today past }
    ensures range { IsDay result }
{
    if first_of_month(today) == today && !past {
        today
    } else {
        last_of_month(today) + 1
    }
}

fn month_end_from(today: i64, past: bool) -> i64
    requires { IsToday today }
    ensures value { result ≡ month_end_from today past }
    ensures range { IsDay result }
{
    let last = last_of_month(today);
    if last == today && past {
        last_of_next_month(today)
    } else {
        last
    }
}

fn weekday_from(weekday: u8, today: i64, past: bool) -> i64
    requires today { IsToday today }
    requires weekday { IsTrue (within 1 7 weekday) }
    ensures value { result ≡ weekday_from weekday today past }
    ensures range { IsDay result }
{
    let days = days_to(weekday, today);
    if days == 0 && past {
        today + 7
    } else {
        today + days
    }
}

/// The day that a word names, where the time may be past on today.
pub fn day_from(date: &DateSpec, today: i64, past: bool) -> i64
    requires today { IsToday today }
    requires date { IsTrue (date_in_range date.now) }
    ensures value { result ≡ day_from date.now today past }
    ensures range { IsDay result }
{
    match date {
        DateSpec::Current => today,
        DateSpec::MonthStart => month_start_from(today, past),
        DateSpec::MonthEnd => month_end_from(today, past),
        DateSpec::Weekday(weekday) => weekday_from(*weekday, today, past),
        DateSpec::Day(date) => day_of_date(*date),
    }
}

/// The second of the day that a word names, where the present one is given.
pub fn second_from(time: &TimeSpec, present: u32) -> u32
    requires present { present < 86400 }
    requires time { IsTrue (time_in_range time.now) }
    ensures value { result ≡ second_from time.now present }
    ensures range { result < 86400 }
{
    match time {
        TimeSpec::Current => present,
        TimeSpec::At(second) => *second,
    }
}
