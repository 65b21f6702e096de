// The calls of a source and of a sink.
use super::answers::{FAILED, answer_bytes};
use super::words::BAR;
use anyhow::Result;
use std::alloc::Global;
use std::fmt::Write;
use wm_cases::bytes_of;
use wm_traits::{Failed, Sink, Source};

fn read_once<S: Source>(
    alloc: Global,
    source: &mut S,
    buf: &mut [u8],
    answer: &mut String,
) -> Result<()> {
    match source.read(buf) {
        Ok(0) => Ok(answer.push_str("END\n")?),
        Ok(n) => answer_bytes(alloc, &buf[..n], answer),
        Err(Failed) => Ok(answer.push_str(FAILED)?),
    }
}

/// Reads once for each of the lengths, with a buffer that is as long.
pub fn read<S: Source>(
    alloc: Global,
    source: &mut S,
    lengths: &str,
    answer: &mut String,
) -> Result<()> {
    for length in lengths.split(BAR) {
        let mut buf = vec![in alloc; 0u8; usize::from(length.parse::<u16>()?)]?;
        read_once(alloc, source, &mut buf, answer)?;
    }
    Ok(())
}

fn answer_taken(taken: Result<usize, Failed>, answer: &mut String) -> Result<()> {
    match taken {
        Ok(taken) => Ok(writeln!(answer, "{taken}")?),
        Err(Failed) => Ok(answer.push_str(FAILED)?),
    }
}

/// Writes each of the texts once, and answers how many of its bytes were taken.
pub fn write<S: Sink>(alloc: Global, sink: &mut S, texts: &str, answer: &mut String) -> Result<()> {
    for text in texts.split(BAR) {
        let bytes = bytes_of(alloc, text)?;
        answer_taken(sink.write(&bytes), answer)?;
    }
    Ok(())
}
