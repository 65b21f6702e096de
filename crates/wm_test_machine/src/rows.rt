// Stored rows: the row that a command makes, what is read of a row, and what a run makes of rows.
//
// Each file has the cases of one of these modules, which says at its head which questions there are. `words` says how a case
// writes a row.
mod job_rows;
mod object_rows;
mod restarts;
mod words;

use anyhow::Result;
use job_rows::JobCases;
use object_rows::RowCases;
use restarts::RestartCases;
use std::rt::Files;
use wm_cases::play;

/// Plays the cases of the three files.
pub fn play_rows<R: AllocGlobal + Files + Print>(rt: &R) -> Result<()> {
    play(rt, "rows.txt", &mut RowCases::new(rt.alloc()))?;
    play(rt, "job_rows.txt", &mut JobCases::new(rt.alloc()))?;
    play(rt, "restarts.txt", &mut RestartCases::new(rt.alloc()))
}
