// Dates and schedules: which days are dates, which words of schedules keep their ranges, and from which moment on a job may
// start.
//
// `data/dates.txt` is written by hand, `data/due.txt` by `bench/dates.py`, which reckons with Python's calendar. The modules
// `date_cases` and `due_cases` say at their heads which questions there are. An answer that isn't the wanted one is printed with
// both.
mod asked;
mod date_cases;
mod due_cases;
mod schedules;

use anyhow::Result;
use date_cases::DateCases;
use due_cases::DueCases;
use wm_cases::play;

/// Plays the cases of both files.
pub fn play_dates(rt: &HostRuntime) -> Result<()> {
    play(rt, "dates.txt", &mut DateCases)?;
    play(rt, "due.txt", &mut DueCases)
}
