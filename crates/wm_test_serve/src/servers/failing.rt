// Which call of a server's forms in memory fails.
use std::alloc::{AllocError, Global};
use wm_outside::{MemKeeper, MemSink, MemSpawner};

/// The one call that fails, counted from 1: a write of the output, an `apply` of the keeper, a start or a look of the spawner.
#[derive(Clone, Copy)]
pub enum Failing {
    Nothing,
    Write(u32),
    Apply(u32),
    Start(u32),
    Look(u32),
}

fn calls(alloc: Global, at: Option<u32>) -> Result<Vec<u32>, AllocError> {
    match at {
        Some(at) => Vec::from_slice(alloc, &[at]),
        None => Ok(Vec::new(alloc)),
    }
}

impl Failing {
    /// The output.
    pub fn sink(self, alloc: Global) -> Result<MemSink, AllocError> {
        let write = match self {
            Failing::Write(at) => Some(at),
            _ => None,
        };
        Ok(MemSink::new(alloc, calls(alloc, write)?))
    }

    /// The keeper of a store without rows.
    pub fn keeper(self, alloc: Global) -> Result<MemKeeper, AllocError> {
        let apply = match self {
            Failing::Apply(at) => Some(at),
            _ => None,
        };
        Ok(MemKeeper::new(Vec::new(alloc), calls(alloc, apply)?))
    }

    /// A monitor's spawner, whose children end at once.
    pub fn spawner(self, alloc: Global) -> Result<MemSpawner, AllocError> {
        let (start, look) = match self {
            Failing::Start(at) => (Some(at), None),
            Failing::Look(at) => (None, Some(at)),
            _ => (None, None),
        };
        let starts = calls(alloc, start)?;
        let looks = calls(alloc, look)?;
        Ok(MemSpawner::new(alloc, 0, starts, Vec::new(alloc), looks))
    }
}
