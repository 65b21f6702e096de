// A CL text with each number of a range.
use crate::tested::Tested;
use crate::text::{first_word, number_of};
use anyhow::Result;
use std::alloc::Global;

// How often the answer was given, one time after another.
#[derive(Drop)]
struct Run {
    answer: String,
    times: u64,
}

impl Run {
    // Adds the number of times and the answer, where there is one.
    fn write(&self, answer: &mut String) -> Result<()> {
        if !self.answer.is_empty() {
            write!(answer, "{} {}", self.times, self.answer)?;
        }
        Ok(())
    }

    // One more answer: the run goes on, or is written, and another one begins.
    fn take(&mut self, next: String, answer: &mut String) -> Result<()> {
        if self.answer.as_str() != next.as_str() {
            self.write(answer)?;
            self.answer = next;
            self.times = 0;
        }
        self.times = self.times.saturating_add(1);
        Ok(())
    }
}

// The text with the number in place of each `#`.
fn numbered(alloc: Global, text: &str, number: u64) -> Result<String> {
    let digits = format!(in alloc; "{number}")?;
    let text = text.replace(alloc, "#", digits.as_str())?;
    Ok(text)
}

impl Tested {
    // The answer to the CL text with the number.
    fn numbered_answer(&mut self, text: &str, number: u64) -> Result<String> {
        let mut answer = String::new(self.alloc);
        let text = numbered(self.alloc, text, number)?;
        self.command(text.as_str(), &mut answer)?;
        Ok(answer)
    }

    /// Calls the CL text of `FIRST LAST TEXT` with each number from the first to the last in place of `#`, and adds the answers,
    /// each with how often it was given.
    pub fn times(&mut self, words: &str, answer: &mut String) -> Result<()> {
        let (first, words) = first_word(words);
        let (last, text) = first_word(words);
        let mut run = Run {
            answer: String::new(self.alloc),
            times: 0,
        };
        for number in number_of(first)?..=number_of(last)? {
            run.take(self.numbered_answer(text, number)?, answer)?;
        }
        run.write(answer)
    }
}
