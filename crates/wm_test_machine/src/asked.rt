// The questions by their first word.
use crate::list::write_sorted;
use crate::object::{write_copied, write_objects};
use crate::shown::write_state;
use crate::tested::Tested;
use crate::text::first_word;
use anyhow::Result;
use std::alloc::Global;
use std::mem;
use wm_cases::Subject;
use wm_command::print;
use wm_core::opening_commands;

// Adds the text of each command that an empty store opens with.
fn write_opening(alloc: Global, answer: &mut String) -> Result<()> {
    for command in &opening_commands(alloc)? {
        let text = print(alloc, command)?;
        writeln!(answer, "{text}")?;
    }
    Ok(())
}

impl Tested {
    // Adds what is shown of the objects, or else of the state.
    fn show(&self, words: &str, answer: &mut String) -> Result<()> {
        let (what, name) = first_word(words);
        match what {
            "jobs"
            | "waiting"
            | "next"
            | "holder"
            | "pending"
            | "power"
            | "prestart"
            | "stopped"
            | "requests" => { write_state(&self.core, what, name, answer) }
            _ => write_objects(self.objects(), what, name, answer),
        }
    }

    // Answers by the first word, which is the name of a command where it is none of these.
    fn ask(&mut self, question: &str, answer: &mut String) -> Result<()> {
        let (word, words) = first_word(question);
        match word {
            "monitor" => self.monitor(words, answer),
            "show" => self.show(words, answer),
            "set" => self.set(words),
            "times" => self.times(words, answer),
            "opening" => write_opening(self.alloc, answer),
            "copy" => write_copied(self.alloc, self.objects(), answer),
            "list" => write_sorted(self.alloc, words, answer),
            _ => self.command(question, answer),
        }
    }
}

impl Subject for Tested {
    fn begin(&mut self) -> Result<()> {
        let tested = Tested::new(self.alloc)?;
        // A call lets the old one go: what is let go in place is proved field by field.
        drop(mem::replace(self, tested));
        Ok(())
    }

    // A question that can't be asked is answered by its fault.
    fn answer(&mut self, question: &str, answer: &mut String) -> Result<()> {
        if let Err(fault) = self.ask(question, answer) {
            writeln!(answer, "{fault}")?;
        }
        Ok(())
    }
}
