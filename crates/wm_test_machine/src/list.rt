// Sorted lists, made from a `Vec` and given back.
use crate::object::write_queue_entry;
use crate::text::{number_of, qname_of};
use anyhow::{Context, Result};
use std::alloc::Global;
use wm_base::Limit;
use wm_desc::{QueueEntries, QueueEntry};

// `10:QGPL/A`
fn entry_of(word: &str) -> Result<QueueEntry> {
    let (seq, jobq) = word.split_once(':').context("no number")?;
    Ok(QueueEntry {
        seq: u32::try_from(number_of(seq)?)?,
        jobq: qname_of(jobq).context("no qualified name")?,
        maxact: Limit::Most(1),
        maxpty: [Limit::NoMax; 9],
    })
}

fn entries_of(alloc: Global, words: &str) -> Result<Vec<QueueEntry>> {
    let mut entries = Vec::new(alloc);
    for word in words.split(' ') {
        entries.push(entry_of(word)?)?;
    }
    Ok(entries)
}

fn write_all(entries: &[QueueEntry], answer: &mut String) -> Result<()> {
    for entry in entries {
        write_queue_entry(entry, answer)?;
    }
    Ok(())
}

/// Adds what the list of such entries gives back, where they are sorted.
pub fn write_sorted(alloc: Global, words: &str, answer: &mut String) -> Result<()> {
    let entries = entries_of(alloc, words)?;
    if !QueueEntries::is_sorted(&entries) {
        answer.push_str("NOT SORTED\n")?;
        return Ok(());
    }
    let list = QueueEntries::from_vec(entries);
    answer.push_str(if list.is_empty() {
        "EMPTY\n"
    } else {
        "SORTED\n"
    })?;
    write_all(&list.into_vec(), answer)
}
