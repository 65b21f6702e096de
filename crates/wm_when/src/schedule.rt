// The words of a schedule.
use crate::is_date;

/// On which day a job may start.
#[derive(Clone, Copy, Debug)]
pub enum DateSpec {
    /// The day of the command.
    Current,
    /// The first day of a month.
    MonthStart,
    /// The last day of a month.
    MonthEnd,
    /// 1 for Monday to 7 for Sunday.
    Weekday(u8),
    /// A date as `yyyymmdd`.
    Day(u32),
}

/// At which time of the day a job may start.
#[derive(Clone, Copy, Debug)]
pub enum TimeSpec {
    /// The time of the command.
    Current,
    /// In seconds of the day.
    At(u32),
}

/// When a job may start.
#[derive(Clone, Copy)]
pub struct SchedSpec {
    pub date: DateSpec,
    pub time: TimeSpec,
}

impl DateSpec {
    ghost use Rattle.std.specs.Prelude.{◌≡◌};
    ghost use Rattle.wm_when.specs.Schedule.{date_in_range};

    /// Whether a weekday is 1 to 7, and a day a date of the calendar from 1970 to 9999.
    pub fn is_in_range(&self) -> bool
        ensures { result ≡ date_in_range self.now }
    {
        match self {
            DateSpec::Weekday(day) => (1..=7).contains(day),
            DateSpec::Day(day) => is_date(*day),
            _ => true,
        }
    }
}

impl TimeSpec {
    ghost use Rattle.std.specs.Prelude.{◌≡◌};
    ghost use Rattle.wm_when.specs.Schedule.{time_in_range};

    /// Whether a time is one of the 86,400 seconds of a day.
    pub fn is_in_range(&self) -> bool
        ensures { result ≡ time_in_range self.now }
    {
        match self {
            TimeSpec::Current => true,
            TimeSpec::At(second) => *second < 86_400,
        }
    }
}

impl SchedSpec {
    ghost use Rattle.std.specs.Prelude.{◌≡◌, ◌&&◌};
    ghost use Rattle.wm_when.specs.Schedule.{date_in_range, time_in_range};

    /// Whether its day and its time are in range.
    pub fn is_in_range(&self) -> bool
        ensures { result ≡ (date_in_range self.now.date && time_in_range self.now.time) }
    {
        self.date.is_in_range() && self.time.is_in_range()
    }
}
