// What routes.txt asks:
//
// > GET TARGET, > POST TARGET, > METHOD TARGET      what the method and the target ask
use anyhow::{Context, Result};
use std::alloc::Global;
use wm_cases::{Subject, bytes_of};
use wm_http::{Route, Routes};
use wm_law::{Ask, JobRef};

/// Methods and targets.
#[derive(Drop)]
pub struct PathCases {
    alloc: Global,
    routes: Routes,
}

impl PathCases {
    pub fn new(alloc: Global) -> Result<PathCases> {
        Ok(PathCases {
            alloc,
            routes: Routes::new(alloc)?,
        })
    }
}

fn asked(ask: &Ask, answer: &mut String) -> Result<()> {
    match ask {
        Ask::Active => answer.push_str("active jobs\n")?,
        Ask::Queue(jobq) => write!(answer, "queue {jobq}\n")?,
        Ask::Submitted(user) => write!(answer, "jobs of {user}\n")?,
        Ask::Subsystems => answer.push_str("subsystems\n")?,
        Ask::Job(JobRef::Full(job)) => write!(answer, "job {job}\n")?,
        Ask::Job(_) => answer.push_str("another reference of a job\n")?,
        Ask::Log => answer.push_str("log\n")?,
        Ask::Pending(_) => answer.push_str("what waits for a monitor\n")?,
    }
    Ok(())
}

impl Subject for PathCases {
    fn begin(&mut self) -> Result<()> {
        Ok(())
    }

    fn answer(&mut self, question: &str, answer: &mut String) -> Result<()> {
        let (method, target) = question.split_once(' ').context("no target")?;
        let target = bytes_of(self.alloc, target)?;
        match self.routes.find(method.as_bytes(), &target) {
            Route::Command(user) => write!(answer, "a command of {user}\n")?,
            Route::Read(ask) => asked(&ask, answer)?,
            Route::NoRoute => answer.push_str("no route\n")?,
            Route::WrongMethod(method) => write!(answer, "only {method}\n")?,
        }
        Ok(())
    }
}
