// The rows of full names, each of which stays until its job is forgotten. They are in ascending order, so those of one name
// lie side by side.
ghost use Rattle.std.specs.Prelude.{◌≡◌, ◌+◌, ◌^◌, ◌<◌, ◌≤◌, true, false, cond, length, count_by, insert, slice_index_or, vec_len, vec_capacity};
ghost use Rattle.std.specs.List.Sorted.{IsPartitionPoint};
ghost use Rattle.wm_base.specs.declared.job.JobName.{JobName};
ghost use Rattle.wm_indexes.specs.FullNames.{serial_of, is_of, is_row, is_below, is_up_to, AreInOrder};
ghost use Rattle.wm_indexes.specs.Names.{row_of};
ghost use Rattle.wm_indexes.specs.Namesakes.{namesakes_among, joined, parted, only};

use crate::keys::FullName;
use wm_base::{JobName, Refusal, Serial};
use wm_law::Job;

/// The row of a job.
pub(crate) fn row_of(job: &Job) -> FullName
    ensures value { result ≡ row_of job.now }
    ensures range { job.now.serial < 2 ^ 64 }
{
    // `get` tells the range.
    job.serial.get();
    FullName {
        job: job.job,
        serial: job.serial,
    }
}

// Where the rows of a name begin, or would.
fn begin(rows: &[FullName], job: &JobName) -> usize
    requires { AreInOrder rows.now }
    ensures bound { result ≤ length rows.now }
    ensures parts { IsPartitionPoint (λ row. is_below job.now row ≡ true) (λ row. is_below job.now row ≡ false) rows.now result }
{
    rows.partition_point(
        |row: &FullName| -> bool
            ensures { result ≡ is_below job.entry.now row.now }
        { row.job.cmp(job).is_lt() },
    )
}

// Where the rows of a name end, or would.
fn end(rows: &[FullName], job: &JobName) -> usize
    requires { AreInOrder rows.now }
    ensures bound { result ≤ length rows.now }
    ensures parts { IsPartitionPoint (λ row. is_up_to job.now row ≡ true) (λ row. is_up_to job.now row ≡ false) rows.now result }
{
    rows.partition_point(
        |row: &FullName| -> bool
            ensures { result ≡ is_up_to job.entry.now row.now }
        { row.job.cmp(job).is_le() },
    )
}

// The same, where it is looked for at the end of the rows first: numbers ascend, so the name of a new job is mostly the last.
fn end_from_last(rows: &[FullName], job: &JobName) -> usize
    requires { AreInOrder rows.now }
    ensures bound { result ≤ length rows.now }
    ensures parts { IsPartitionPoint (λ row. is_up_to job.now row ≡ true) (λ row. is_up_to job.now row ≡ false) rows.now result }
{
    match rows.last() {
        Some(last) if last.job.cmp(job).is_gt() => end(rows, job),
        _ => rows.len(),
    }
}

// Puts in a row at a place, for which there is room.
fn put_at(rows: &mut Vec<FullName>, at: usize, row: FullName)
    requires in_range { at ≤ vec_len rows.old }
    requires room { vec_len rows.old < vec_capacity rows.old }
    ensures items { rows.new.items ≡ insert rows.old.items at row }
    ensures len { vec_len rows.new ≡ vec_len rows.old + 1 }
    ensures capacity { vec_capacity rows.new ≡ vec_capacity rows.old }
{
    rows.insert(at, row).unwrap();
}

/// Puts in the row of a job, for which there is room.
pub(crate) fn put(rows: &mut Vec<FullName>, row: FullName)
    requires in_order { AreInOrder rows.old.items }
    requires room { vec_len rows.old < vec_capacity rows.old }
    ensures in_order { AreInOrder rows.new.items }
    ensures rows { (job : JobName) → namesakes_among serial_of (is_of job) rows.new.items ≡ joined (is_of job row) row.serial (namesakes_among serial_of (is_of job) rows.old.items) }
    ensures each { (x : FullName) → count_by (is_row x) rows.new.items ≡ count_by (is_row x) rows.old.items + cond (is_row x row) 1 0 }
    ensures len { length rows.new.items ≡ length rows.old.items + 1 }
    ensures capacity { vec_capacity rows.new ≡ vec_capacity rows.old }
{
    let at = end_from_last(rows.as_slice(), &row.job);
    put_at(rows, at, row);
}

// Where a row stands that is there. It is looked for backwards from the last of its name.
fn place_of(rows: &[FullName], row: &FullName) -> usize
    requires in_order { AreInOrder rows.now }
    requires there { 1 ≤ count_by (is_row row.now) rows.now }
    ensures in_range { result < length rows.now }
    ensures value { slice_index_or rows.now result row.now ≡ row.now }
{
    for at in (0..end_from_last(rows, &row.job)).rev() {
        if rows[at] == *row {
            return at;
        }
    }
    unreachable!()
}

/// Takes out the row of a job, which is there.
pub(crate) fn take_out(rows: &mut Vec<FullName>, row: &FullName)
    requires in_order { AreInOrder rows.old.items }
    requires there { 1 ≤ count_by (is_row row.now) rows.old.items }
    requires range { row.now.serial < 2 ^ 64 }
    ensures in_order { AreInOrder rows.new.items }
    ensures rows { (job : JobName) → namesakes_among serial_of (is_of job) rows.new.items ≡ parted (is_of job row.now) row.now.serial (namesakes_among serial_of (is_of job) rows.old.items) }
    ensures each { (x : FullName) → count_by (is_row x) rows.new.items + cond (is_row x row.now) 1 0 ≡ count_by (is_row x) rows.old.items }
    ensures len { length rows.new.items + 1 ≡ length rows.old.items }
    ensures capacity { vec_capacity rows.new ≡ vec_capacity rows.old }
{
    let at = place_of(rows.as_slice(), row);
    rows.remove(at);
}

/// The serial of the only job of a full name: none is NOJOB, several are AMBIGUOUS with their number.
pub(crate) fn only(rows: &[FullName], job: &JobName) -> Result<Serial, Refusal>
    requires in_order { AreInOrder rows.now }
    requires counted { count_by (is_of job.now) rows.now < 2 ^ 32 }
    ensures { result ≡ only (namesakes_among serial_of (is_of job.now) rows.now) }
{
    let at = begin(rows, job);
    let count = end(rows, job) - at;
    if count == 0 {
        return Err(Refusal::NoJob);
    }
    if count > 1 {
        return Err(Refusal::Ambiguous(count as u32));
    }
    let serial = rows[at].serial;
    // `get` tells the range.
    serial.get();
    Ok(serial)
}
