// What calls.txt asks:
//
// > print LIB/PGM TEXT ..    the canonical text of a CALL of the program with these values
// > read TEXT                the canonical text of the CALL that is read
// > values TEXT              how many values the CALL that is read has
// > items TEXT               for each list of a command, how many items it has, and the CALL that those behind the
//                            first are
// > names TEXT               for each item of a command, the object and the program that it names
use crate::asked;
use crate::names::two;
use anyhow::{Result, ensure};
use std::alloc::Global;
use wm_base::{Args, QName, Text, is_text};
use wm_cases::{Subject, bytes_of};
use wm_clwords::{
    CallFault, CallText, Item, call_text, read_call, read_call_items, read_command, read_object,
    read_program,
};

/// CALLs, and the names in them.
#[derive(Drop)]
pub struct CallCases {
    alloc: Global,
}

impl CallCases {
    pub fn new(alloc: Global) -> CallCases {
        CallCases { alloc }
    }
}

impl Subject for CallCases {
    fn begin(&mut self) -> Result<()> {
        Ok(())
    }

    fn answer(&mut self, question: &str, answer: &mut String) -> Result<()> {
        let (asked, text) = asked::parts(question);
        match asked {
            "print" => print(self.alloc, text, answer),
            "read" => read(self.alloc, text, answer),
            "values" => count_values(self.alloc, text, answer),
            "items" => read_lists(self.alloc, text, answer),
            "names" => read_names(self.alloc, text, answer),
            _ => asked::unknown(asked),
        }
    }
}

fn push_value(alloc: Global, values: &mut Args, text: &str) -> Result<()> {
    ensure!(is_text(text.as_bytes()), "no text");
    values.push(Text::from_bytes(alloc, text.as_bytes())?)?;
    Ok(())
}

fn print(alloc: Global, text: &str, answer: &mut String) -> Result<()> {
    let (program, texts) = asked::parts(text);
    let mut values = Args::new(alloc);
    for text in texts.split_whitespace() {
        push_value(alloc, &mut values, text)?;
    }
    let (lib, name) = two(program, '/')?;
    let text = call_text(alloc, &QName { lib, name }, &values)?;
    writeln!(answer, "{text}")?;
    Ok(())
}

// The canonical text of what was read.
fn push_call(alloc: Global, read: &Result<CallText, CallFault>, answer: &mut String) -> Result<()> {
    match read {
        Err(fault) => writeln!(answer, "{fault:?}")?,
        Ok(call) => {
            let text = call_text(alloc, &call.pgm, &call.parms)?;
            writeln!(answer, "{text}")?;
        }
    }
    Ok(())
}

fn push_count(read: &Result<CallText, CallFault>, answer: &mut String) -> Result<()> {
    match read {
        Err(fault) => writeln!(answer, "{fault:?}")?,
        Ok(call) => writeln!(answer, "{}", call.parms.len())?,
    }
    Ok(())
}

fn read(alloc: Global, text: &str, answer: &mut String) -> Result<()> {
    let bytes = bytes_of(alloc, text)?;
    push_call(alloc, &read_call(alloc, &bytes), answer)
}

fn count_values(alloc: Global, text: &str, answer: &mut String) -> Result<()> {
    let bytes = bytes_of(alloc, text)?;
    push_count(&read_call(alloc, &bytes), answer)
}

fn read_list(alloc: Global, items: &[Item], answer: &mut String) -> Result<()> {
    write!(answer, "{} items, ", items.len())?;
    let others = items.get(1..).unwrap_or(&[]);
    push_call(alloc, &read_call_items(alloc, others), answer)
}

fn read_lists(alloc: Global, text: &str, answer: &mut String) -> Result<()> {
    let tree = read_command(alloc, text.as_bytes())?;
    for item in &tree.items {
        if let Item::Keyed(_, _, items) = item {
            read_list(alloc, items, answer)?;
        }
    }
    Ok(())
}

fn push_name(name: &Option<QName>, answer: &mut String) -> Result<()> {
    match name {
        None => answer.push_str("none")?,
        Some(name) => write!(answer, "{name}")?,
    }
    Ok(())
}

fn push_names(item: &Item, answer: &mut String) -> Result<()> {
    push_name(&read_object(item), answer)?;
    answer.push(' ')?;
    push_name(&read_program(item), answer)?;
    answer.push('\n')?;
    Ok(())
}

fn read_names(alloc: Global, text: &str, answer: &mut String) -> Result<()> {
    let tree = read_command(alloc, text.as_bytes())?;
    for item in &tree.items {
        push_names(item, answer)?;
    }
    Ok(())
}
