// The calls of a spawner.
use super::answers::{answer_kill, answer_look, answer_start};
use super::orders::order;
use super::words::{first_word, moment, serial, unknown};
use anyhow::Result;
use std::alloc::Global;
use std::sync::Wait;
use wm_base::Moment;
use wm_traits::Spawner;

// `until 1000` is a moment, nothing is none.
fn until(words: &str) -> Result<Option<Moment>> {
    match words.strip_prefix("until ") {
        Some(seconds) => Ok(Some(moment(seconds)?)),
        None => Ok(None),
    }
}

/// Answers `start 7 /bin/a | x`, `kill 7`, `look`, `wait` and `wait until 1000`.
pub fn ask_spawner<W: Wait, S: Spawner>(
    rt: &W,
    alloc: Global,
    spawner: &mut S,
    question: &str,
    answer: &mut String,
) -> Result<()> {
    let (word, rest) = first_word(question);
    match word {
        "start" => answer_start(spawner.start(&order(alloc, rest)?), answer),
        "kill" => answer_kill(spawner.kill(serial(rest)?), answer),
        "look" => answer_look(spawner.ended(), answer),
        "wait" => answer_look(spawner.wait_ended(rt, until(rest)?), answer),
        _ => unknown(question),
    }
}
