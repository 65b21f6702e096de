// The words of a schedule as due.txt writes them.
use anyhow::{Result, bail};
use wm_when::{DateSpec, TimeSpec};

fn date_word(word: &str) -> Option<DateSpec> {
    match word {
        "current" => Some(DateSpec::Current),
        "monthstart" => Some(DateSpec::MonthStart),
        "monthend" => Some(DateSpec::MonthEnd),
        "mon" => Some(DateSpec::Weekday(1)),
        "tue" => Some(DateSpec::Weekday(2)),
        "wed" => Some(DateSpec::Weekday(3)),
        "thu" => Some(DateSpec::Weekday(4)),
        "fri" => Some(DateSpec::Weekday(5)),
        "sat" => Some(DateSpec::Weekday(6)),
        "sun" => Some(DateSpec::Weekday(7)),
        _ => None,
    }
}

/// `current`, `monthstart`, `monthend`, `mon` to `sun`, or a date as `yyyymmdd`.
pub fn date_of(word: &str) -> Result<DateSpec> {
    match date_word(word) {
        Some(date) => Ok(date),
        None => Ok(DateSpec::Day(word.parse::<u32>()?)),
    }
}

/// `current`, or a time as `hhmmss`.
pub fn time_of(word: &str) -> Result<TimeSpec> {
    if word == "current" {
        return Ok(TimeSpec::Current);
    }
    let time = word.parse::<u32>()?;
    if time > 235_959 {
        bail!("no time: {word}");
    }
    Ok(TimeSpec::At(time / 10_000 * 3_600 + time / 100 % 100 * 60 + time % 100))
}
