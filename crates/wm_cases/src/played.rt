// Asking what a file asks, and comparing the answers.
use anyhow::Result;
use std::alloc::Global;
use std::rt::Files;
use std::{fs, io};

/// What is asked by the cases of a file.
pub trait Subject {
    /// Begins a case: nothing of an earlier one is left.
    fn begin(&mut self) -> Result<()>;

    /// Answers a question by lines, each with its end.
    fn answer(&mut self, question: &str, answer: &mut String) -> Result<()>;
}

// The question that is open, with its answer and the wanted one.
#[derive(Drop)]
struct Open<'a> {
    case: &'a str,
    question: Option<&'a str>,
    got: String,
    wanted: String,
    asked: u64,
    wrong: u64,
}

impl<'a> Open<'a> {
    // Prints the wanted answer and the other one.
    fn tell<R: Print>(&self, rt: &R, question: &str) -> io::Result<()> {
        let (case, wanted, got) = (self.case, self.wanted.as_str(), self.got.as_str());
        print!(rt; "== {case}\n> {question}\n-- wanted\n{wanted}-- answered\n{got}")
    }

    // Compares the answer to the open question, where there is one.
    fn close<R: Print>(&mut self, rt: &R) -> Result<()> {
        if let Some(question) = self.question.take() {
            self.asked = self.asked.saturating_add(1);
            if self.got.as_str() != self.wanted.as_str() {
                self.wrong = self.wrong.saturating_add(1);
                self.tell(rt, question)?;
            }
        }
        self.got.clear();
        self.wanted.clear();
        Ok(())
    }

    // Prints how many answers there were, or how many of them weren't the wanted ones.
    fn sum_up<R: Print>(&self, rt: &R, path: &str) -> io::Result<()> {
        match self.wrong {
            0 => println!(rt; "{path}: {} answers", self.asked),
            wrong => println!(rt; "{path}: {wrong} of {} answers are others", self.asked),
        }
    }

    fn line<R: Print, S: Subject>(&mut self, rt: &R, subject: &mut S, line: &'a str) -> Result<()> {
        if let Some(case) = line.strip_prefix("== ") {
            self.close(rt)?;
            self.case = case;
            subject.begin()?;
        } else if let Some(question) = line.strip_prefix("> ") {
            self.close(rt)?;
            self.question = Some(question);
            subject.answer(question, &mut self.got)?;
        } else if !line.is_empty() {
            self.wanted.push_str(line)?;
            self.wanted.push('\n')?;
        }
        Ok(())
    }
}

/// Asks all that the file asks, and prints how many answers there were, or each that isn't the wanted one and how many
/// of them there were. An `Err` is a file that can't be read, a subject's own fault, or want of memory.
pub fn play<R: AllocGlobal + Files + Print, S: Subject>(
    rt: &R,
    path: &str,
    subject: &mut S,
) -> Result<()> {
    let alloc: Global = rt.alloc();
    let text = fs::read_to_string(rt, path)?;
    let mut open = Open {
        case: "",
        question: None,
        got: String::new(alloc),
        wanted: String::new(alloc),
        asked: 0,
        wrong: 0,
    };
    for line in text.as_str().lines() {
        open.line(rt, subject, line)?;
    }
    open.close(rt)?;
    open.sum_up(rt, path)?;
    Ok(())
}
