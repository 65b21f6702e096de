// Prestart jobs, and std's own container that is given the same calls.
use anyhow::{Result, ensure};
use std::alloc::Global;
use std::collections::BTreeMap;
use wm_base::{JobNumber, Name, QName, Serial};
use wm_indexes::{PrestartEntry, PrestartJob, PrestartJobs, Readiness};

#[derive(Drop)]
pub struct PrestartPair {
    jobs: PrestartJobs,
    other_jobs: BTreeMap<u64, PrestartJob>,
}

fn qname(lib: &[u8], name: &[u8]) -> Result<QName> {
    Ok(QName {
        lib: Name::read(lib)?,
        name: Name::read(name)?,
    })
}

/// One of four entries: two programs in each of two subsystems.
pub fn entry(number: u64) -> Result<PrestartEntry> {
    let sbs = match number & 1 {
        0 => qname(b"QGPL", b"SA")?,
        _ => qname(b"QGPL", b"SB")?,
    };
    let pgm = match number & 2 {
        0 => qname(b"A", b"P")?,
        _ => qname(b"B", b"P")?,
    };
    Ok(PrestartEntry { sbs, pgm })
}

/// A job of one of these entries, with one of seven numbers.
pub fn job(number: u64) -> Result<PrestartJob> {
    let readiness = match number / 4 % 3 {
        0 => Readiness::Coming,
        1 => Readiness::Idle,
        _ => Readiness::Taken,
    };
    Ok(PrestartJob {
        entry: entry(number)?,
        number: JobNumber::new((number / 12 % 7 + 1) as u32),
        readiness,
    })
}

impl PrestartPair {
    pub fn new(alloc: Global) -> PrestartPair {
        PrestartPair {
            jobs: PrestartJobs::new(alloc),
            other_jobs: BTreeMap::new(alloc),
        }
    }

    /// Puts in a job, or sets the one that is there.
    pub fn put(&mut self, serial: u64, job: &PrestartJob) -> Result<()> {
        self.jobs.reserve(1)?;
        let key = Serial::new(serial);
        if self.other_jobs.contains_key(&serial) {
            self.jobs.set(key, *job);
        } else {
            // Nothing is there to be removed. The call tells that what is put in is new.
            self.jobs.remove(key);
            self.jobs.insert(key, *job);
        }
        self.other_jobs.insert(serial, *job)?;
        Ok(())
    }

    /// Takes out a job that may not be there.
    pub fn take(&mut self, serial: u64) {
        self.jobs.remove(Serial::new(serial));
        self.other_jobs.remove(&serial);
    }

    /// Compares what both answer about an entry.
    pub fn compare(&self, entry: &PrestartEntry) -> Result<()> {
        ensure!(self.jobs.len() == self.other_jobs.len(), "len");
        let mut available = 0u32;
        let mut first: Option<(u32, u64)> = None;
        for (serial, job) in self.other_jobs.iter() {
            if job.entry != *entry || matches!(job.readiness, Readiness::Taken) {
                continue;
            }
            available = available.saturating_add(1);
            let own = (job.number.get(), *serial);
            if matches!(job.readiness, Readiness::Idle) && first.is_none_or(|other| own < other) {
                first = Some(own);
            }
        }
        ensure!(self.jobs.available(entry) == available, "available");
        let ours = self.jobs.first_idle(entry).map(|serial| serial.get());
        ensure!(ours == first.map(|least| least.1), "first idle");
        Ok(())
    }

    pub fn len(&self) -> usize {
        self.other_jobs.len()
    }
}
