// Bytes as a case writes them.
use anyhow::{Context, Result};
use std::alloc::{AllocError, Global};

// What stands behind a backslash, and how many bytes that took.
fn escaped(rest: &[u8]) -> Option<(u8, usize)> {
    match rest {
        [b'n', ..] => Some((b'\n', 1)),
        [b'r', ..] => Some((b'\r', 1)),
        [b't', ..] => Some((b'\t', 1)),
        [b'x', high, low, ..] => {
            let (high, low) = (
                char::from(*high).to_digit(16)?,
                char::from(*low).to_digit(16)?,
            );
            Some((u8::try_from(high * 16 + low).ok()?, 3))
        }
        [byte, ..] => Some((*byte, 1)),
        [] => None,
    }
}

// The text without escapes.
fn without_escapes(alloc: Global, text: &[u8]) -> Result<Vec<u8>> {
    let mut bytes = Vec::new(alloc);
    let mut skip = 0usize;
    for (at, byte) in text.iter().enumerate() {
        if skip > 0 {
            skip -= 1;
        } else if *byte == b'\\' {
            let (escaped, taken) = escaped(&text[at..][1..]).context("a lone backslash")?;
            bytes.push(escaped)?;
            skip = taken;
        } else {
            bytes.push(*byte)?;
        }
    }
    Ok(bytes)
}

// `8193 A` stands for 8,193 times `A`.
fn push_repeated(bytes: &mut Vec<u8>, alloc: Global, repeated: &str) -> Result<()> {
    let (count, what) = repeated.split_once(' ').context("no count")?;
    let count = count.parse::<u32>()?;
    let what = without_escapes(alloc, what.as_bytes())?;
    for _ in 0..count {
        bytes.extend_from_slice(&what)?;
    }
    Ok(())
}

/// The bytes that a case writes as this text: `\n`, `\r`, `\t`, `\x80` and `\\` are bytes, and `{8193 A}` stands for
/// 8,193 times `A`.
pub fn bytes_of(alloc: Global, text: &str) -> Result<Vec<u8>> {
    let mut bytes = Vec::new(alloc);
    for part in text.split('{') {
        match part.split_once('}') {
            None => bytes.extend_from_slice(&without_escapes(alloc, part.as_bytes())?)?,
            Some((repeated, rest)) => {
                push_repeated(&mut bytes, alloc, repeated)?;
                bytes.extend_from_slice(&without_escapes(alloc, rest.as_bytes())?)?;
            }
        }
    }
    Ok(bytes)
}

/// How many bytes are shown one by one at the most.
const MOST_SHOWN: usize = 200;

/// Bytes as an answer shows them: all but the printable ones as `\x80`, and of more than 200 the number alone.
pub fn visible(alloc: Global, bytes: &[u8]) -> Result<String, AllocError> {
    if bytes.len() > MOST_SHOWN {
        return format!(in alloc; "({} bytes)", bytes.len());
    }
    let mut text = String::new(alloc);
    for byte in bytes {
        if (0x20..=0x7e).contains(byte) {
            text.push(char::from(*byte))?;
        } else {
            write!(text, "\\x{byte:02x}")?;
        }
    }
    Ok(text)
}
