// Two monitors beside a session, by turns in one thread: the session calls with pass 0, the monitors with passes 1 and 2.
//
// `tested` says which questions monitors.txt asks.
mod site;
mod tested;
mod told;

use anyhow::Result;
use std::rt::Files;
use std::sync::Wait;
use tested::Tested;
use wm_cases::play;

/// Plays the cases of the file.
pub fn play_monitors<R: AllocGlobal + Files + Print + Wait>(rt: &R) -> Result<()> {
    let mut tested = Tested::new(rt, rt.alloc());
    let played = play(rt, "monitors.txt", &mut tested);
    tested.end();
    played
}
