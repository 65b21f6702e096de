// The words of a schedule as dates.txt writes them.
use anyhow::{Result, anyhow};
use wm_when::{DateSpec, SchedSpec, TimeSpec};

fn date_of(text: &str) -> Result<DateSpec> {
    match text {
        "current" => Ok(DateSpec::Current),
        "month start" => Ok(DateSpec::MonthStart),
        "month end" => Ok(DateSpec::MonthEnd),
        _ => day_of(text),
    }
}

// `weekday 1` or `day 20240229`.
fn day_of(text: &str) -> Result<DateSpec> {
    if let Some(day) = text.strip_prefix("weekday ") {
        return Ok(DateSpec::Weekday(day.parse::<u8>()?));
    }
    let day = text.strip_prefix("day ").ok_or(anyhow!("a day"))?;
    Ok(DateSpec::Day(day.parse::<u32>()?))
}

// `current` or `second 86399`.
fn time_of(text: &str) -> Result<TimeSpec> {
    if text == "current" {
        return Ok(TimeSpec::Current);
    }
    let second = text.strip_prefix("second ").ok_or(anyhow!("a second"))?;
    Ok(TimeSpec::At(second.parse::<u32>()?))
}

/// Whether a day and a time, parted by a comma, are in range.
pub fn range(text: &str, answer: &mut String) -> Result<()> {
    let (date, time) = text.split_once(", ").ok_or(anyhow!("a time"))?;
    let schedule = SchedSpec {
        date: date_of(date)?,
        time: time_of(time)?,
    };
    writeln!(answer, "{}", schedule.is_in_range())?;
    Ok(())
}
