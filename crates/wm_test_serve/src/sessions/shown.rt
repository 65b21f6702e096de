// What an answer of a case shows.
use super::serving::Came;
use crate::lines::show_lines;
use anyhow::Result;
use wm_web::WebEnd;

fn end_word(end: WebEnd) -> &'static str {
    match end {
        WebEnd::Done => "Done",
        WebEnd::CutShort => "CutShort",
        WebEnd::Budget => "Budget",
        WebEnd::PowerDown => "PowerDown",
        WebEnd::ReadFault => "ReadFault",
        WebEnd::WriteFault => "WriteFault",
        WebEnd::NoMemory => "NoMemory",
    }
}

fn show_end(came: &Came, shown: &mut String) -> Result<()> {
    let (end, before, after) = (end_word(came.end), came.before, came.after);
    write!(shown, "{end}, gate {before} {after}\n")?;
    Ok(())
}

/// All that was written, the end, and how often each call of the gate came.
pub fn show(came: &Came, shown: &mut String) -> Result<()> {
    show_lines(came.sink.bytes(), shown)?;
    show_end(came, shown)
}

// How often a status line begins in the bytes.
fn responses(bytes: &[u8]) -> usize {
    bytes
        .windows(9)
        .filter(|window| *window == b"HTTP/1.1 ".as_slice())
        .count()
}

/// How many responses were written, in how many bytes, and the last so many bytes; the end, and the gate's calls.
pub fn show_count(came: &Came, last: usize, shown: &mut String) -> Result<()> {
    let bytes = came.sink.bytes();
    let count = responses(bytes);
    let len = bytes.len();
    write!(shown, "{count} responses, {len} bytes\n")?;
    show_lines(&bytes[len.saturating_sub(last)..], shown)?;
    show_end(came, shown)
}
