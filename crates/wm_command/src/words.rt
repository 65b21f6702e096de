// What texts say: numbers, names, dates and times.
ghost use Rattle.std.specs.Prelude.{◌≡◌, ◌≤◌, length, take, drop, take_while, codes, fold, Some, nat_eq, IsTrue, ◌<◌, ◌^◌, IfSome};
ghost use Rattle.std.specs.Option.{option_copied};
ghost use Rattle.wm_base.specs.Text.{IsText};
ghost use Rattle.wm_command.specs.Words.{push_digit, digits, kept_within, number_of, is_no_slash, before_slash, behind_slash, simple_of, by_user_of, full_of, job_behind, job_with, job_of, flag_text, flag_of, ending_text, ending_of, date_word, date_word_of, day_of, date_with, date_of, second_of, time_of};
ghost use Rattle.wm_when.specs.Schedule.{within};

use wm_base::{JobName, JobNumber, Name, name_of};
use wm_law::{EndOption, JobRef};
use wm_when::{DateSpec, TimeSpec, is_date};

/// Whether a number is from `low` to `high`.
pub fn within(low: usize, high: usize, n: usize) -> bool
    ensures { result ≡ within low high n }
{
    low <= n && n <= high
}

fn push_digit(n: Option<u32>, byte: u8) -> Option<u32>
    ensures { result ≡ push_digit n byte }
{
    let n = n?;
    if byte.is_ascii_digit() && n < 100_000_000 {
        Some(n * 10 + (byte - b'0') as u32)
    } else {
        None
    }
}

/// A number of `fewest` to `most` digits, from `low` to `high`.
#[tactic(auto, unfolding(crate::specs::Words::number_of, crate::specs::Words::digits))]
pub fn number_of(fewest: usize, most: usize, low: u32, high: u32, text: &[u8]) -> Option<u32>
    ensures value { result ≡ number_of fewest most low high text.now }
    ensures range { IfSome result (λ n. IsTrue (within low high n)) }
{
    if !within(fewest, most, text.len()) {
        return None;
    }
    let n = text.iter().fold(Some(0), |n, byte| push_digit(n, *byte))?;
    if low <= n && n <= high { Some(n) } else { None }
}

fn slash_at(text: &[u8]) -> usize
    ensures value { result ≡ length (take_while is_no_slash text.now) }
    ensures within { result ≤ length text.now }
{
    text.iter().take_while(|byte| **byte != b'/').count()
}

fn before_slash(text: &[u8]) -> &[u8]
    ensures { result.now ≡ before_slash text.now }
{
    &text[..slash_at(text)]
}

fn behind_slash(text: &[u8]) -> Option<&[u8]>
    ensures { option_copied result ≡ behind_slash text.now }
{
    let at = slash_at(text);
    if at < text.len() {
        Some(&text[at + 1..])
    } else {
        None
    }
}

fn job_behind(first: &[u8], second: &[u8], third: Option<&[u8]>) -> Option<JobRef>
    ensures { result ≡ job_behind first.now second.now (option_copied third.entry) }
{
    let Some(third) = third else {
        let user = name_of(first)?;
        let name = name_of(second)?;
        return Some(JobRef::ByUser(user, name));
    };
    let number = JobNumber::new(number_of(1, 6, 1, 999_999, first)?);
    let user = name_of(second)?;
    let name = name_of(third)?;
    Some(JobRef::Full(JobName { number, user, name }))
}

/// `NAME`, `USER/NAME` or `NUMBER/USER/NAME`, the number of 1 to 6 digits.
#[tactic(auto, unfolding(crate::specs::Words::job_of))]
pub fn job_of(text: &[u8]) -> Option<JobRef>
    ensures { result ≡ job_of text.now }
{
    let first = before_slash(text);
    match behind_slash(text) {
        None => name_of(first).map(JobRef::Simple),
        Some(rest) => job_behind(first, before_slash(rest), behind_slash(rest)),
    }
}

/// The word of a flag.
pub fn flag_word(flag: bool) -> &'static str
    ensures value { result.now ≡ flag_text flag }
    ensures text { IsText result.now }
{
    if flag { "*YES" } else { "*NO" }
}

const FLAGS: [bool; 2] = [true, false];

/// The flag of a word, but not in apostrophes.
pub fn flag_of(is_word: bool, text: &[u8]) -> Option<bool>
    ensures { result ≡ flag_of is_word text.now }
{
    FLAGS
        .iter()
        .copied()
        .find(|flag| is_word && text == flag_word(*flag).as_bytes())
}

/// The word of an ending.
pub fn ending_word(ending: EndOption) -> &'static str
    ensures value { result.now ≡ ending_text ending }
    ensures text { IsText result.now }
{
    match ending {
        EndOption::Cntrld => "*CNTRLD",
        EndOption::Immed => "*IMMED",
    }
}

const ENDINGS: [EndOption; 2] = [EndOption::Cntrld, EndOption::Immed];

/// The ending of a word, but not in apostrophes.
pub fn ending_of(is_word: bool, text: &[u8]) -> Option<EndOption>
    ensures { result ≡ ending_of is_word text.now }
{
    ENDINGS.iter().copied().find(|ending| is_word && text == ending_word(*ending).as_bytes())
}

/// The word of a date, or nothing for a day. Monday is 1.
pub fn date_word(date: DateSpec) -> &'static str
    ensures value { result.now ≡ date_word date }
    ensures text { IsText result.now }
{
    match date {
        DateSpec::Current => "*CURRENT",
        DateSpec::MonthStart => "*MONTHSTR",
        DateSpec::MonthEnd => "*MONTHEND",
        DateSpec::Weekday(1) => "*MON",
        DateSpec::Weekday(2) => "*TUE",
        DateSpec::Weekday(3) => "*WED",
        DateSpec::Weekday(4) => "*THU",
        DateSpec::Weekday(5) => "*FRI",
        DateSpec::Weekday(6) => "*SAT",
        DateSpec::Weekday(_) => "*SUN",
        DateSpec::Day(_) => "",
    }
}

const DATES: [DateSpec; 10] = [
    DateSpec::Current,
    DateSpec::MonthStart,
    DateSpec::MonthEnd,
    DateSpec::Weekday(1),
    DateSpec::Weekday(2),
    DateSpec::Weekday(3),
    DateSpec::Weekday(4),
    DateSpec::Weekday(5),
    DateSpec::Weekday(6),
    DateSpec::Weekday(7),
];

fn date_word_of(text: &[u8]) -> Option<DateSpec>
    ensures { result ≡ date_word_of text.now }
{
    DATES
        .iter()
        .copied()
        .find(|date| text == date_word(*date).as_bytes())
}

/// A special word, but not in apostrophes, or `yyyymmdd`.
#[tactic(auto, unfolding(crate::specs::Words::date_of))]
pub fn date_of(is_word: bool, text: &[u8]) -> Option<DateSpec>
    ensures { result ≡ date_of is_word text.now }
{
    match date_word_of(text) {
        Some(spec) => { if is_word { Some(spec) } else { None } }
        None => {
            let n = number_of(8, 8, 0, 99_999_999, text)?;
            if is_date(n) {
                Some(DateSpec::Day(n))
            } else {
                None
            }
        }
    }
}

/// *CURRENT, but not in apostrophes, or `hhmmss`.
#[tactic(auto, unfolding(crate::specs::Words::time_of))]
pub fn time_of(is_word: bool, text: &[u8]) -> Option<TimeSpec>
    ensures { result ≡ time_of is_word text.now }
{
    if is_word && text == b"*CURRENT".as_slice() {
        return Some(TimeSpec::Current);
    }
    let n = number_of(6, 6, 0, 999_999, text)?;
    let hour = n / 10_000;
    let minute = n / 100 % 100;
    let second = n % 100;
    if hour < 24 && minute < 60 && second < 60 {
        Some(TimeSpec::At(hour * 3600 + minute * 60 + second))
    } else {
        None
    }
}
