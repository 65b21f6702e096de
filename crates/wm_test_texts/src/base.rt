// What base.txt asks:
//
// > name TEXT           the name that the bytes are
// > views NAME          the name as it is printed, as a text and as bytes
// > order NAME NAME     whether the first is less, equal or greater
// > text TEXT           whether the bytes are a text
// > grown TEXT TEXT     a text that got these pieces at its end
// > args TEXT TEXT      arguments that got these texts
// > qname NAME NAME     a library and a name, printed
// > job NUMBER NAME NAME          a job's full name, printed
// > number, > serial, > priority, > moment N      the number, and as it is printed
// > greatest            the greatest job number and moment
// > limit N, > admits N COUNT     a limit as it is printed, and whether it admits a count
// > exit CODE, > causes, > refusals, > kinds, > phases, > keywords      what each has, as it is printed
// > count               how many bytes a count of steps has
use crate::{asked, causes, names, numbers};
use anyhow::Result;
use std::alloc::Global;
use wm_cases::Subject;

/// Names, texts, numbers, and the words of refusals and ends.
#[derive(Drop)]
pub struct BaseCases {
    alloc: Global,
}

impl BaseCases {
    pub fn new(alloc: Global) -> BaseCases {
        BaseCases { alloc }
    }

    fn named(&self, asked: &str, text: &str, answer: &mut String) -> Result<()> {
        match asked {
            "name" => names::name(self.alloc, text, answer),
            "views" => names::views(self.alloc, text, answer),
            "order" => names::order(text, answer),
            "text" => names::text(self.alloc, text, answer),
            "grown" => names::grown(self.alloc, text, answer),
            "args" => names::args(self.alloc, text, answer),
            "qname" => names::qname(text, answer),
            "job" => names::job(text, answer),
            _ => BaseCases::numbered(asked, text, answer),
        }
    }

    fn numbered(asked: &str, text: &str, answer: &mut String) -> Result<()> {
        match asked {
            "number" => numbers::number(text, answer),
            "serial" => numbers::serial(text, answer),
            "priority" => numbers::priority(text, answer),
            "moment" => numbers::moment(text, answer),
            "greatest" => numbers::greatest(answer),
            "limit" => numbers::limit(text, answer),
            "admits" => numbers::admits(text, answer),
            "count" => numbers::count(answer),
            _ => BaseCases::worded(asked, text, answer),
        }
    }

    fn worded(asked: &str, text: &str, answer: &mut String) -> Result<()> {
        match asked {
            "exit" => causes::exit(text, answer),
            "causes" => causes::causes(answer),
            "refusals" => causes::refusals(answer),
            "kinds" => causes::kinds(answer),
            "phases" => causes::phases(answer),
            "keywords" => causes::keywords(answer),
            _ => asked::unknown(asked),
        }
    }
}

impl Subject for BaseCases {
    fn begin(&mut self) -> Result<()> {
        Ok(())
    }

    fn answer(&mut self, question: &str, answer: &mut String) -> Result<()> {
        let (asked, text) = asked::parts(question);
        self.named(asked, text, answer)
    }
}
