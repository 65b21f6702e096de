// What rows of names are found by.
ghost use Rattle.std.specs.Prelude.{◌++◌};
ghost use Rattle.std.specs.Hash as fed;
ghost use Rattle.std.specs.Cmp.Rules.{hashing};
ghost use Rattle.std.proofs.Common.{rules};

use std::hash::{Hash, Hasher};
use wm_base::{JobName, Name, Serial};

/// A simple name of jobs.
#[derive(Clone, Copy, PartialEq, Eq)]
pub(crate) struct SimpleName {
    pub(crate) name: Name,
}

/// A user, and the simple name of a job of that user.
#[derive(Clone, Copy, PartialEq, Eq)]
pub(crate) struct UserName {
    pub(crate) user: Name,
    pub(crate) name: Name,
}

/// The full name of a job, and the job's serial.
#[derive(Clone, Copy, PartialEq)]
pub(crate) struct FullName {
    pub(crate) job: JobName,
    pub(crate) serial: Serial,
}

impl Hash for SimpleName {
    ghost hash_input = { λ key. fed.str key.name };

    ghost respects_eq = { Prim.search (hashing, rules) };

    fn hash<H: Hasher>(&self, state: &mut H) {
        self.name.as_str().hash(state);
    }
}

impl Hash for UserName {
    ghost hash_input = { λ key. fed.str key.user ++ fed.str key.name };

    ghost respects_eq = { Prim.search (hashing, rules) };

    fn hash<H: Hasher>(&self, state: &mut H) {
        self.user.as_str().hash(state);
        self.name.as_str().hash(state);
    }
}
