// Which jobs references name.
use crate::full_names::{only, put, row_of, take_out};
use crate::keys::{FullName, SimpleName, UserName};
use crate::namesakes::Namesakes;
use crate::refs::{join_open, leave_open};
use std::alloc::Global;
use std::collections::HashMap;
use std::marker::Model;
use wm_base::{NoMemory, Refusal, Serial};
use wm_law::{Job, JobRef};

/// Which jobs are named by which references. The jobs themselves aren't kept: a contract sees the rows, and says of which
/// jobs they are the names. `spare` is for how many more jobs there is room.
#[derive(Drop)]
pub struct JobNames {
    // A row for each job, in ascending order of the full names.
    full: Vec<FullName>,
    // The jobs that haven't ended, by the references without a number.
    by_user: HashMap<UserName, Namesakes>,
    simple: HashMap<SimpleName, Namesakes>,
    // For how many more jobs there is room.
    room: u32,
}

impl Model for JobNames {
    ghost use Rattle.wm_indexes.specs.Names.{Names};

    ghost Value = { Names };

    ghost use Rattle.wm_indexes.specs.NamesInside.{names_of, IsNamesInside};

    ghost view = { names_of };

    ghost invariant = { IsNamesInside };
}

impl JobNames {
    ghost use Rattle.std.specs.Prelude.{◌≡◌, ◌+◌, ◌∷◌, ◌++◌, ◌≤◌, [], true, List, filter, OnOk, OnErr};
    ghost use Rattle.wm_law.specs.declared.job.Job.{Job};
    ghost use Rattle.wm_law.specs.Named.{is_ended, is_named, only_one};
    ghost use Rattle.wm_indexes.specs.Names.{IsNames, HasFew, HasNamed, HasLast, serial_of_one};

    /// The names of no job.
    pub fn new(alloc: Global) -> JobNames
        ensures names { IsNames [] result }
        ensures spare { result.spare ≡ 0 }
    {
        JobNames {
            full: Vec::new(alloc),
            by_user: HashMap::new(alloc),
            simple: HashMap::new(alloc),
            room: 0,
        }
    }

    /// Makes room for a number of jobs. An `Err` is want of memory; there is as much room then as there was.
    pub fn reserve(&mut self, more: u32) -> Result<(), NoMemory>
        ensures ok { OnOk result (more ≤ self.new.spare) }
        ensures names { (jobs : List Job) → IsNames jobs self.old → IsNames jobs self.new }
        ensures spare { self.old.spare ≤ self.new.spare }
        ensures err { OnErr result (self.new.spare ≡ self.old.spare) }
    {
        if more <= self.room {
            return Ok(());
        }
        self.full.reserve(more as usize)?;
        self.by_user.reserve(more as usize)?;
        self.simple.reserve(more as usize)?;
        self.room = more;
        Ok(())
    }

    /// Adds the names of a job. It takes no memory.
    pub fn add(&mut self, job: &Job)
        requires spare { 1 ≤ self.old.spare }
        requires few { HasFew self.old }
        ensures names { (jobs : List Job) → IsNames jobs self.old → IsNames (jobs ++ job.now ∷ []) self.new }
        ensures spare { self.old.spare ≤ self.new.spare + 1 }
    {
        put(&mut self.full, row_of(job));
        join_open(&mut self.by_user, &mut self.simple, job);
        self.room -= 1;
    }

    /// A job ends, so a reference without its number names it no more. `job` is what it was before. It takes no memory.
    pub fn end(&mut self, job: &Job)
        requires { HasNamed self.old job.now }
        ensures names { (before behind : List Job) (ended : Job) → ended.serial ≡ job.now.serial → ended.job ≡ job.now.job → is_ended ended.phase ≡ true → IsNames (before ++ job.now ∷ behind) self.old → IsNames (before ++ ended ∷ behind) self.new }
        ensures spare { self.old.spare ≤ self.new.spare }
    {
        leave_open(&mut self.by_user, &mut self.simple, job);
    }

    /// A job that had ended comes to be one that hasn't, so a reference without its number names it again. `job` is what it
    /// comes to be. It takes no memory.
    pub fn rejoin(&mut self, job: &Job)
        requires spare { 1 ≤ self.old.spare }
        requires few { HasFew self.old }
        ensures names { (before behind : List Job) (ended : Job) → ended.serial ≡ job.now.serial → ended.job ≡ job.now.job → is_ended ended.phase ≡ true → IsNames (before ++ ended ∷ behind) self.old → IsNames (before ++ job.now ∷ behind) self.new }
        ensures spare { self.old.spare ≤ self.new.spare + 1 }
    {
        // The row of its full name has stayed.
        join_open(&mut self.by_user, &mut self.simple, job);
        self.room -= 1;
    }

    /// Forgets the last job of the list, which has ended. It takes no memory.
    pub fn forget(&mut self, job: &Job)
        requires { HasLast self.old job.now }
        ensures names { (jobs : List Job) → IsNames (jobs ++ job.now ∷ []) self.old → IsNames jobs self.new }
        ensures spare { self.old.spare ≤ self.new.spare }
    {
        take_out(&mut self.full, &row_of(job));
    }

    /// The serial of the one job that a reference names: none is NOJOB, several are AMBIGUOUS with their number.
    pub fn find(&self, reference: &JobRef) -> Result<Serial, Refusal>
        ensures { (jobs : List Job) → IsNames jobs self.now → result ≡ serial_of_one (only_one (filter (is_named reference.now) jobs)) }
    {
        match reference {
            JobRef::Simple(name) => {
                let key = SimpleName { name: *name };
                Namesakes::of(self.simple.get(&key).copied()).only()
            }
            JobRef::ByUser(user, name) => {
                let key = UserName {
                    user: *user,
                    name: *name,
                };
                Namesakes::of(self.by_user.get(&key).copied()).only()
            }
            JobRef::Full(job) => only(&self.full, job),
        }
    }
}
