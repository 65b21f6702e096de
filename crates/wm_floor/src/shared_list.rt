// Lists in parts, which several lists share.
ghost use Rattle.std.specs.Prelude.{◌≡◌, ◌<◌, ◌≤◌, ◌^◌, ◌++◌, [], ◌∷◌, length, slice_get, IfOk, OnOk, OnErr};
ghost use Rattle.std.specs.Option.{option_copied};

use crate::shared::Shared;
use std::alloc::{AllocError, AllocFailed, Global};
use std::marker::Model;
use std::mem;
use std::sync::Arc;
use wm_base::NoMemory;

/// How many values a full part has.
pub(crate) const PART: usize = 1024;

/// Values in order: in full parts, each of which other lists have as a whole, and behind these in a last part, whose values they
/// have one by one. A contract sees the list of the values, and for how many more there is room.
#[derive(Drop)]
pub(crate) struct SharedList<T> {
    full: Vec<Shared<Vec<Shared<T>>>>,
    last: Vec<Shared<T>>,
}

impl<T> Model for SharedList<T> {
    ghost use Rattle.std.specs.Prelude.{◌++◌, ◌-◌, min};
    ghost use Rattle.std.specs.List.{flat_map};
    ghost use Rattle.std.specs.Vec.{vec_capacity, vec_len};
    ghost use Rattle.wm_floor.specs.declared.shared_list.TheConstants.{PART};
    ghost use Rattle.wm_floor.specs.SharedList.{AreParts, Listed};

    ghost Value = { Listed T };

    ghost view = { λ l. record { items = flat_map (λ part. part.items) l.full.items ++ l.last.items; room = min PART (vec_capacity l.last) - vec_len l.last } };

    ghost invariant = { λ l. AreParts (λ part. part.items) l.full.items l.last.items };
}

// The value at a place of a part.
fn value_at<T>(part: &[Shared<T>], at: usize) -> Option<&T>
    ensures { option_copied result ≡ slice_get part.now at }
{
    match part.get(at) {
        Some(value) => Some(value.get()),
        None => None,
    }
}

// Each of these values once more.
fn again<T: Drop>(alloc: Global, values: &[Shared<T>]) -> Result<Vec<Shared<T>>, NoMemory>
    ensures { IfOk result (λ more. more.items ≡ values.now) }
{
    let mut more = Vec::with_capacity(alloc, values.len())?;
    for value in values {
        more.push(value.again()?)?;
    }
    Ok(more)
}

// Puts the last part behind the full ones, and begins another.
fn close_part<T: Drop>(
    alloc: Global,
    full: &mut Vec<Shared<Vec<Shared<T>>>>,
    last: &mut Vec<Shared<T>>,
) -> Result<(), NoMemory>
    ensures full { OnOk result (full.new.items ≡ full.old.items ++ last.old ∷ []) }
    ensures last { OnOk result (last.new.items ≡ []) }
    ensures err_full { OnErr result (full.new.items ≡ full.old.items) }
    ensures err_last { OnErr result (last.new ≡ last.old) }
{
    full.reserve(1)?;
    match Arc::new(alloc, mem::replace(last, Vec::new(alloc))) {
        Ok(part) => {
            full.push_reserved(Shared::of(part));
            Ok(())
        }
        Err(AllocFailed { value }) => {
            *last = value;
            Err(AllocError)
        }
    }
}

impl<T: Drop> SharedList<T> {
    /// A list of no values.
    pub(crate) fn new(alloc: Global) -> SharedList<T>
        ensures items { result.items ≡ [] }
    {
        SharedList {
            full: Vec::new(alloc),
            last: Vec::new(alloc),
        }
    }

    /// Makes room for one more value.
    pub(crate) fn reserve(&mut self, alloc: Global) -> Result<(), NoMemory>
        ensures items { self.new.items ≡ self.old.items }
        ensures room { OnOk result (1 ≤ self.new.room) }
    {
        if self.last.len() == PART {
            close_part(alloc, &mut self.full, &mut self.last)?;
        }
        self.last.reserve(1)?;
        Ok(())
    }

    /// Puts a value, for which there is room, behind the others.
    pub(crate) fn push_reserved(&mut self, value: Shared<T>)
        requires room { 1 ≤ self.old.room }
        requires most { length self.old.items < 2 ^ 32 }
        ensures items { self.new.items ≡ self.old.items ++ value ∷ [] }
    {
        self.last.push_reserved(value);
    }

    /// How many values there are.
    #[tactic(auto, using(crate::proofs::Places::length_parts))]
    pub(crate) fn len(&self) -> usize
        ensures { result ≡ length self.now.items }
    {
        self.full.len() * PART + self.last.len()
    }

    /// The value at a place, counted from 0.
    #[tactic(auto, using(crate::proofs::Places::found_last))]
    pub(crate) fn get(&self, at: usize) -> Option<&T>
        ensures { option_copied result ≡ slice_get self.now.items at }
    {
        match self.full.get(at / PART) {
            Some(part) => value_at(part.get(), at % PART),
            None => value_at(&self.last, at - self.full.len() * PART),
        }
    }

    /// The list once more. It takes a handle for each full part, and one for each value of the last.
    pub(crate) fn again(&self, alloc: Global) -> Result<SharedList<T>, NoMemory>
        ensures { IfOk result (λ more. more.items ≡ self.now.items) }
    {
        Ok(SharedList {
            full: again(alloc, &self.full)?,
            last: again(alloc, &self.last)?,
        })
    }
}
