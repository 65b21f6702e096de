// What restarts.txt asks:
//
// > row TAB|KEY|BODY     adds a row, which has no answer
// > open                 what a run makes of the rows: `BAD N` with the number of the first that isn't good, else how many
//                        objects there are of each kind, how many entries and held queues, the next number, place and
//                        serial, and each job as `SERIAL NUMBER/USER/NAME PHASE`
// > write                what a run writes as it opens with the rows, or with none: `BAD N`, else each row that it puts as
//                        `TAB|KEY|BODY`, and behind these their number
use super::words;
use anyhow::{Result, bail};
use std::alloc::Global;
use wm_cases::Subject;
use wm_core::Setup;
use wm_desc::{Objects, Sbsd, qbatch};
use wm_law::Job;
use wm_restart::{ReadParts, RestartFault, open_rows, read_rows};
use wm_traits::{Row, RowChange};
use wm_when::Offset;

/// The rows of a store.
#[derive(Drop)]
pub struct RestartCases {
    alloc: Global,
    rows: Vec<Row>,
}

impl RestartCases {
    pub fn new(alloc: Global) -> RestartCases {
        RestartCases {
            alloc,
            rows: Vec::new(alloc),
        }
    }
}

impl RestartCases {
    fn add(&mut self, question: &str) -> Result<()> {
        match question.strip_prefix("row ") {
            None => words::unknown(question),
            Some(written) => Ok(self.rows.push(words::row(self.alloc, written)?)?),
        }
    }
}

impl Subject for RestartCases {
    fn begin(&mut self) -> Result<()> {
        self.rows.clear();
        Ok(())
    }

    fn answer(&mut self, question: &str, answer: &mut String) -> Result<()> {
        match question {
            "open" => tell_read(self.alloc, &self.rows, answer),
            "write" => tell_written(self.alloc, &self.rows, answer),
            _ => self.add(question),
        }
    }
}

fn tell_read(alloc: Global, rows: &[Row], answer: &mut String) -> Result<()> {
    if rows.is_empty() {
        bail!("no rows");
    }
    match read_rows(alloc, rows, Offset::new(0)) {
        Ok(reading) => {
            let read = reading.parts();
            let told = push_read(&read, answer);
            drop(read);
            told
        }
        Err(fault) => push_fault(&fault, answer),
    }
}

fn tell_written(alloc: Global, rows: &[Row], answer: &mut String) -> Result<()> {
    let setup = Setup {
        ctl: qbatch(),
        offset: Offset::new(0),
    };
    match open_rows(alloc, rows, &setup) {
        Ok(opened) => {
            let told = push_changes(&opened.changes, answer);
            drop(opened);
            told
        }
        Err(fault) => push_fault(&fault, answer),
    }
}

fn push_fault(fault: &RestartFault, answer: &mut String) -> Result<()> {
    match fault {
        RestartFault::BadRow(n) => Ok(writeln!(answer, "BAD {n}")?),
        RestartFault::NoMemory => bail!("out of memory"),
    }
}

fn push_changes(changes: &[RowChange], answer: &mut String) -> Result<()> {
    for change in changes {
        push_change(change, answer)?;
    }
    writeln!(answer, "{} rows", changes.len())?;
    Ok(())
}

fn push_change(change: &RowChange, answer: &mut String) -> Result<()> {
    match change {
        RowChange::Put(row) => Ok(writeln!(answer, "{}|{}|{}", row.tab, row.key, row.body)?),
        RowChange::Del(tab, key) => bail!("a row is deleted: {tab}|{key}"),
    }
}

fn push_read(read: &ReadParts, answer: &mut String) -> Result<()> {
    push_counts(&read.objects, read.held.len(), answer)?;
    writeln!(
        answer,
        "NEXT {} {} {}",
        read.next_number, read.next_place, read.next_serial
    )?;
    push_jobs(&read.jobs, answer)
}

// How many objects there are of each kind, how many entries, and how many held queues.
fn push_counts(objects: &Objects, held: usize, answer: &mut String) -> Result<()> {
    write!(
        answer,
        "OBJECTS {} {} {} ",
        objects.classes.len(),
        objects.programs.len(),
        objects.jobqs.len()
    )?;
    let (jobds, sbsds) = (objects.jobds.len(), objects.sbsds.len());
    let entries = count_entries(objects);
    writeln!(answer, "{jobds} {sbsds} ENTRIES {entries} HELD {held}")?;
    Ok(())
}

fn count_entries(objects: &Objects) -> usize {
    let mut entries = 0_usize;
    for (_, description) in objects.sbsds.as_slice() {
        entries = entries.saturating_add(entries_of(description));
    }
    entries
}

fn push_jobs(jobs: &[Job], answer: &mut String) -> Result<()> {
    for job in jobs {
        push_job(job, answer)?;
    }
    Ok(())
}

fn entries_of(description: &Sbsd) -> usize {
    description
        .queues
        .len()
        .saturating_add(description.routes.len())
        .saturating_add(description.autos.len())
        .saturating_add(description.pres.len())
}

fn push_job(job: &Job, answer: &mut String) -> Result<()> {
    writeln!(answer, "{} {} {:?}", job.serial, job.job, job.phase)?;
    Ok(())
}
