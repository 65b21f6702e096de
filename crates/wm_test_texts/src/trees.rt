// What trees.txt asks:
//
// > read TEXT    the name of the command that the bytes are, and each item with its place and its length, those of a
//                list two blanks deeper; or the fault
use crate::asked;
use anyhow::Result;
use std::alloc::{AllocError, Global};
use wm_cases::{Subject, bytes_of};
use wm_clwords::{ClFault, Item, Tree, read_command};

/// Trees.
#[derive(Drop)]
pub struct TreeCases {
    alloc: Global,
}

impl TreeCases {
    pub fn new(alloc: Global) -> TreeCases {
        TreeCases { alloc }
    }
}

impl Subject for TreeCases {
    fn begin(&mut self) -> Result<()> {
        Ok(())
    }

    fn answer(&mut self, question: &str, answer: &mut String) -> Result<()> {
        let (asked, text) = asked::parts(question);
        match asked {
            "read" => read(self.alloc, text, answer),
            _ => asked::unknown(asked),
        }
    }
}

fn read(alloc: Global, text: &str, answer: &mut String) -> Result<()> {
    let bytes = bytes_of(alloc, text)?;
    push_read(&read_command(alloc, &bytes), answer)
}

fn push_read(read: &Result<Tree, ClFault>, answer: &mut String) -> Result<()> {
    match read {
        Err(fault) => writeln!(answer, "{fault:?}")?,
        Ok(tree) => push_tree(tree, answer)?,
    }
    Ok(())
}

fn push_tree(tree: &Tree, answer: &mut String) -> Result<()> {
    writeln!(answer, "{}", tree.name)?;
    for item in &tree.items {
        push_item(item, 0, answer)?;
    }
    Ok(())
}

// An item, and those in it two blanks deeper.
fn push_item(item: &Item, depth: usize, answer: &mut String) -> Result<()> {
    write!(answer, "{:depth$}", "")?;
    push_head(item, answer)?;
    if let Item::List(_, items) | Item::Keyed(_, _, items) = item {
        for item in items {
            push_item(item, depth.saturating_add(2), answer)?;
        }
    }
    Ok(())
}

// An item's place and length, and what it is.
fn push_head(item: &Item, answer: &mut String) -> Result<(), AllocError> {
    match item {
        Item::Word(span, text) => writeln!(answer, "{} {} word {text}", span.place, span.len),
        Item::Quoted(span, text) => writeln!(answer, "{} {} text {text}", span.place, span.len),
        Item::List(span, _) => writeln!(answer, "{} {} list", span.place, span.len),
        Item::Keyed(span, key, _) => writeln!(answer, "{} {} key {key}", span.place, span.len),
    }
}
