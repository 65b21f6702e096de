// What each call answers and stores, what a keeper's fault leaves, and what a run makes of the tables that the run before it left.
//
// A question of stored.txt is a CL text, which the user QUSER calls, or one of the words of `tested`, `asked` and
// `monitor_calls`.
mod asked;
mod failing;
mod rows;
mod tested;

use anyhow::Result;
use std::rt::Files;
use std::sync::Wait;
use tested::Tested;
use wm_cases::play;

/// Plays the cases of the file.
pub fn play_stored<R: AllocGlobal + Files + Print + Wait>(rt: &R) -> Result<()> {
    let mut tested = Tested::new(rt, rt.alloc());
    let played = play(rt, "stored.txt", &mut tested);
    tested.end();
    played
}
