// Days by their number from 1970-01-01. They are computed with the dates of `jiff`.
ghost use Rattle.std.specs.Prelude.{◌≡◌, ◌+◌, IsTrue, pos};
ghost use Rattle.jiff.specs.Words.{epoch_day, IsEpochDay};
ghost use Rattle.wm_when.specs.Schedule.{within, is_date};
ghost use Rattle.wm_when.specs.DueRanges.{IsToday, IsDay};
ghost use Rattle.wm_when.specs.Due.{month_start, month_end, month_of, day_of_date, days_to};

use jiff::civil::{Date, Weekday};
use jiff_core::civil;

fn date_of(day: i64) -> Date
    requires { IsEpochDay day }
    ensures { epoch_day result ≡ day }
{
    Date::from_plain(civil::Date::from_unix_epoch_day(day).unwrap())
}

fn day_of(date: Date) -> i64
    ensures value { result ≡ epoch_day date }
    ensures range { IsEpochDay result }
{
    i64::from(date.to_plain().to_unix_epoch_day())
}

/// The first day of the month of a day.
pub fn first_of_month(day: i64) -> i64
    requires { IsToday day }
    ensures value { result ≡ month_start (month_of day) }
    ensures range { IsEpochDay result }
{
    day_of(date_of(day).first_of_month())
}

/// The last day of the month of a day.
pub fn last_of_month(day: i64) -> i64
    requires { IsToday day }
    ensures value { result ≡ month_end (month_of day) }
    ensures range { IsToday result }
{
    day_of(date_of(day).last_of_month())
}

/// The last day of the month after that of a last day. `jiff` has no day after 9999-12-31, which January follows.
pub fn last_of_next_month(last: i64) -> i64
    requires today { IsToday last }
    requires last { last ≡ month_end (month_of last) }
    ensures value { result ≡ month_end (month_of last + 1) }
    ensures range { IsDay result }
{
    match date_of(last).tomorrow() {
        Ok(first) => day_of(first.last_of_month()),
        Err(_) => last + 31,
    }
}

/// How many days it is to the next such weekday, and 0 on that day.
pub fn days_to(weekday: u8, day: i64) -> i64
    requires today { IsToday day }
    requires weekday { IsTrue (within 1 7 weekday) }
    ensures { result ≡ pos (days_to weekday day) }
{
    let wanted = Weekday::from_monday_one_offset(weekday as i8).unwrap();
    i64::from(date_of(day).weekday().until(wanted))
}

/// The day of a date that is written as `yyyymmdd`.
pub fn day_of_date(date: u32) -> i64
    requires { IsTrue (is_date date) }
    ensures value { result ≡ day_of_date date }
    ensures range { IsToday result }
{
    let year = (date / 10_000) as i16;
    let month = (date / 100 % 100) as i8;
    let day = (date % 100) as i8;
    day_of(Date::new(year, month, day).unwrap())
}
