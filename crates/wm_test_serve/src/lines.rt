// The lines of what is written to a connection.
use anyhow::{Result, bail};
use std::str;

/// The lines, each with its carriage return as `\r`.
pub fn show_lines(bytes: &[u8], shown: &mut String) -> Result<()> {
    let Ok(text) = str::from_utf8(bytes) else {
        bail!("no UTF-8")
    };
    for part in text.split('\n') {
        match part.strip_suffix('\r') {
            Some(line) => write!(shown, "{line}\\r\n")?,
            None if part.is_empty() => {}
            None => write!(shown, "{part}\n")?,
        }
    }
    Ok(())
}
