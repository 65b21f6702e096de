// What keys.txt asks. Fields are parted by bars, and values by blanks.
//
// > list NAME VALUE ..       gives values a name, by which the questions of the case speak of them
// > key HEAD | KEY | SPECIAL | TAKEN | REFUSED
//     a command with the other keys that it must have; the key, with a ! where it must be given; a special word that may
//     stand for its value; values that it takes; values that it refuses
// > command HEAD | FIRST | KEYS | ALL
//     a command with its first key; that key once more; the command's keys; keys of which it has no others
// > length HEAD | OPEN | CLOSE | LEAST | MOST | FAULT
//     what stands before a text of letters and behind it; how many letters it has at least and at most; the fault of
//     another number of letters
// > asked                    how many items were tried in the case
//
// The answer has each item that was answered otherwise than it should, and is empty where none was.
use crate::asked;
use crate::properties::Tried;
use anyhow::{Context, Result, bail};
use std::alloc::{AllocError, Global};
use std::collections::BTreeMap;
use wm_cases::Subject;

/// What the keys of each command take.
#[derive(Drop)]
pub struct KeyCases {
    alloc: Global,
    lists: BTreeMap<String, String>,
    tried: u64,
}

impl KeyCases {
    pub fn new(alloc: Global) -> KeyCases {
        KeyCases {
            alloc,
            lists: BTreeMap::new(alloc),
            tried: 0,
        }
    }

    fn list(&mut self, text: &str) -> Result<()> {
        let (name, values) = asked::parts(text);
        let name = name.to_string(self.alloc)?;
        let values = values.to_string(self.alloc)?;
        self.lists.insert(name, values)?;
        Ok(())
    }

    // The values of a list, or the values that stand there themselves.
    fn values<'a>(&'a self, text: &'a str) -> &'a str {
        match self.lists.get(text) {
            None => text,
            Some(values) => values.as_str(),
        }
    }

    fn try_text(&mut self, asked: &str, text: &str, answer: &mut String) -> Result<()> {
        let fields = fields(self.alloc, text)?;
        self.try_fields(asked, &fields, answer)
    }

    // Asks what the fields say of a key, a command or a length.
    fn try_fields(&mut self, asked: &str, fields: &[&str], answer: &mut String) -> Result<()> {
        let (head, others) = fields.split_first().context("no fields")?;
        let mut tried = Tried::new(self.alloc, *head, answer);
        self.try_others(asked, others, &mut tried)?;
        self.tried = self.tried.saturating_add(tried.count());
        Ok(())
    }

    fn try_others(&self, asked: &str, others: &[&str], tried: &mut Tried) -> Result<()> {
        match asked {
            "key" => self.try_key(others, tried),
            "command" => self.try_command(others, tried),
            "length" => try_length(others, tried),
            _ => asked::unknown(asked),
        }
    }

    fn try_key(&self, fields: &[&str], tried: &mut Tried) -> Result<()> {
        let [key, special, taken, refused] = fields else {
            bail!("not the fields of a key");
        };
        tried.key(*key, *special, self.values(*taken), self.values(*refused))
    }

    fn try_command(&self, fields: &[&str], tried: &mut Tried) -> Result<()> {
        let [first, keys, all] = fields else {
            bail!("not the fields of a command");
        };
        tried.command(*first, *keys, self.values(*all))
    }
}

impl Subject for KeyCases {
    fn begin(&mut self) -> Result<()> {
        self.lists.clear();
        self.tried = 0;
        Ok(())
    }

    fn answer(&mut self, question: &str, answer: &mut String) -> Result<()> {
        let (asked, text) = asked::parts(question);
        match asked {
            "list" => self.list(text),
            "asked" => write_count(self.tried, answer),
            _ => self.try_text(asked, text, answer),
        }
    }
}

fn write_count(count: u64, answer: &mut String) -> Result<()> {
    writeln!(answer, "{count}")?;
    Ok(())
}

fn try_length(fields: &[&str], tried: &mut Tried) -> Result<()> {
    let [open, close, least, most, fault] = fields else {
        bail!("not the fields of a length");
    };
    let (least, most) = (least.parse::<u16>()?, most.parse::<u16>()?);
    tried.lengths((*open, *close), least, most, fault.parse::<u8>()?)
}

// The texts between the bars.
fn fields(alloc: Global, text: &str) -> Result<Vec<&str>, AllocError> {
    text.split('|').map(|field| field.trim()).collect(alloc)
}
