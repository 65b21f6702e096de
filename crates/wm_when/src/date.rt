// The calendar.
ghost use Rattle.std.specs.Prelude.{◌≡◌};
ghost use Rattle.wm_when.specs.Schedule.{is_leap_year, days_in_month, within, is_day_of, is_date};

/// Whether a year of the Gregorian calendar has a 29th of February.
pub fn is_leap_year(year: u32) -> bool
    ensures { result ≡ is_leap_year year }
{
    year % 4 == 0 && year % 100 != 0 || year % 400 == 0
}

/// How many days a month has, January being 1.
pub fn days_in_month(year: u32, month: u32) -> u32
    ensures { result ≡ days_in_month year month }
{
    if month == 2 {
        if is_leap_year(year) { 29 } else { 28 }
    } else if month == 4 || month == 6 || month == 9 || month == 11 {
        30
    } else {
        31
    }
}

fn within(low: u32, high: u32, n: u32) -> bool
    ensures { result ≡ within low high n }
{
    low <= n && n <= high
}

fn is_day_of(year: u32, month: u32, day: u32) -> bool
    ensures { result ≡ is_day_of year month day }
{
    let days = days_in_month(year, month);
    within(1970, 9999, year) && within(1, 12, month) && within(1, days, day)
}

/// Whether a number, read as `yyyymmdd`, is a date of the calendar from 19700101 to 99991231.
pub fn is_date(day: u32) -> bool
    ensures { result ≡ is_date day }
{
    is_day_of(day / 10_000, day / 100 % 100, day % 100)
}
