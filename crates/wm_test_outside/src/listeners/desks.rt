// The cases of a listener in memory and two desks.
//
// `listener ab | cd, failing 2` makes a listener of two connections, whose second look fails; `-` stands for none. `close` closes
// it. `one next` looks for a connection with the first desk, `other next` with the second; `read N`, `write TEXT` and `done` are
// the calls of the connection in hand, and `had` shows what was written of those that were given back.
use super::unused::connections_of;
use super::worker::Worker;
use crate::words::{failing, first_word, unknown};
use anyhow::Result;
use std::alloc::Global;
use std::mem::replace;
use std::sync::Wait;
use wm_cases::Subject;
use wm_listener::{Listener, MemListener};

/// A listener with two workers.
#[derive(Drop)]
pub struct DeskCases<'r, R> {
    alloc: Global,
    rt: &'r R,
    listener: MemListener,
    one: Worker,
    other: Worker,
}

// The listener of `ab | cd, failing 2`.
fn listener_of(alloc: Global, words: &str) -> Result<MemListener> {
    let (texts, options) = words.split_once(", ").unwrap_or((words, ""));
    let unused = connections_of(alloc, texts)?;
    Ok(unused.listener(failing(alloc, options, "failing ")?))
}

fn ask_worker<R: Wait>(
    rt: &R,
    alloc: Global,
    listener: &MemListener,
    worker: &mut Worker,
    words: &str,
    answer: &mut String,
) -> Result<()> {
    let (word, rest) = first_word(words);
    match word {
        "next" => Ok(answer.push_str(worker.next(rt, listener))?),
        "done" => Ok(answer.push_str(worker.done(listener))?),
        "read" => worker.read(alloc, rest, answer),
        "write" => worker.write(alloc, rest),
        "had" => worker.had(alloc, answer),
        _ => unknown(words),
    }
}

impl<'r, R: Wait> DeskCases<'r, R> {
    pub fn new(alloc: Global, rt: &'r R) -> DeskCases<'r, R> {
        DeskCases {
            alloc,
            rt,
            listener: MemListener::new(Vec::new(alloc), Vec::new(alloc)),
            one: Worker::new(alloc),
            other: Worker::new(alloc),
        }
    }
}

impl<'r, R: Wait> Subject for DeskCases<'r, R> {
    fn begin(&mut self) -> Result<()> {
        let listener = MemListener::new(Vec::new(self.alloc), Vec::new(self.alloc));
        drop(replace(&mut self.listener, listener));
        drop(replace(&mut self.one, Worker::new(self.alloc)));
        drop(replace(&mut self.other, Worker::new(self.alloc)));
        Ok(())
    }

    fn answer(&mut self, question: &str, answer: &mut String) -> Result<()> {
        let (word, words) = first_word(question);
        match word {
            "listener" => {
                drop(replace(&mut self.listener, listener_of(self.alloc, words)?));
                Ok(())
            }
            "close" => {
                self.listener.close();
                Ok(())
            }
            "one" => ask_worker(
                self.rt,
                self.alloc,
                &self.listener,
                &mut self.one,
                words,
                answer,
            ),
            "other" => ask_worker(
                self.rt,
                self.alloc,
                &self.listener,
                &mut self.other,
                words,
                answer,
            ),
            _ => unknown(question),
        }
    }
}
