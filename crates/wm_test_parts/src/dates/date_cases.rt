// What dates.txt asks:
//
// > date NUMBER              whether the number is a date
// > calendar YEAR YEAR ..    how many of the days of a grid of these years are dates both here and in `jiff`, or in
//                            neither, and each day that is a date in one of them alone
// > schedule DATE, TIME      whether the words of a schedule are in range
use super::schedules;
use anyhow::{Context, Result, bail};
use jiff::civil::Date;
use wm_cases::Subject;
use wm_when::is_date;

/// Dates and the words of schedules.
#[derive(Drop)]
pub struct DateCases;

impl Subject for DateCases {
    fn begin(&mut self) -> Result<()> {
        Ok(())
    }

    fn answer(&mut self, question: &str, answer: &mut String) -> Result<()> {
        let (asked, text) = question.split_once(' ').context("no question")?;
        match asked {
            "date" => tell_date(text, answer),
            "calendar" => compare_years(text, answer),
            "schedule" => schedules::range(text, answer),
            _ => bail!("no question: {asked}"),
        }
    }
}

fn tell_date(text: &str, answer: &mut String) -> Result<()> {
    let number = text.parse::<u32>()?;
    writeln!(answer, "{}", is_date(number))?;
    Ok(())
}

fn jiff_has(year: u16, month: u8, day: u8) -> bool {
    match (i16::try_from(year), i8::try_from(month), i8::try_from(day)) {
        (Ok(year), Ok(month), Ok(day)) => Date::new(year, month, day).is_ok(),
        _ => false,
    }
}

// Whether a day is a date for both or for neither, and 1 or 0 for that.
fn compare_day(year: u16, month: u8, day: u8, answer: &mut String) -> Result<u64> {
    let number = u32::from(year) * 10_000 + u32::from(month) * 100 + u32::from(day);
    if is_date(number) == jiff_has(year, month, day) {
        return Ok(1);
    }
    writeln!(answer, "{number} differs")?;
    Ok(0)
}

fn compare_month(year: u16, month: u8, answer: &mut String) -> Result<u64> {
    let mut agreed = 0u64;
    for day in [0u8, 1, 28, 29, 30, 31, 32] {
        agreed = agreed.saturating_add(compare_day(year, month, day, answer)?);
    }
    Ok(agreed)
}

fn compare_year(year: u16, answer: &mut String) -> Result<u64> {
    let mut agreed = 0u64;
    for month in 0u8..=13 {
        agreed = agreed.saturating_add(compare_month(year, month, answer)?);
    }
    Ok(agreed)
}

fn compare_years(years: &str, answer: &mut String) -> Result<()> {
    let mut agreed = 0u64;
    for year in years.split_whitespace() {
        agreed = agreed.saturating_add(compare_year(year.parse::<u16>()?, answer)?);
    }
    writeln!(answer, "{agreed} days")?;
    Ok(())
}
