// Lists sorted by a key.
ghost use Rattle.std.specs.Prelude.{◌≡◌, ◌↔◌, [], false, length, IsTrue, OnOk, OnErr, option_copied, MatchResult};
ghost use Rattle.std.specs.Ordering.{is_lt};
ghost use Rattle.wm_desc.specs.Sorted.{IsSortedOnce, with_key, has_key, added, removed};
ghost use Rattle.wm_desc.specs.Place.{IsAt, IsGap};

use crate::ExactClone;
use std::alloc::Global;
use std::cmp::Ordering;
use std::marker::Model;
use wm_base::{NoMemory, QName};

/// What a sorted list may have as its elements.
pub trait Keyed {
    /// What the list is sorted by.
    type By: Ord;

    ghost key: { Self → Self.By };

    fn key(&self) -> &Self::By
        ensures { result.now ≡ key self.now };
}

/// A name is its own key.
impl Keyed for QName {
    type By = QName;

    ghost key = { λ name. name };

    fn key(&self) -> &QName {
        self
    }
}

/// A list in ascending order of its elements' keys, with each key once. A contract sees it as the plain list.
/// A look-up by key halves the list at each step.
#[derive(Drop)]
pub struct SortedList<E: Keyed> {
    pub(crate) items: Vec<E>,
}

impl<E: Keyed> Model for SortedList<E> {
    ghost use Rattle.std.specs.Prelude.{List};
    ghost use Rattle.wm_desc.specs.Sorted.{IsSortedOnce};

    ghost Value = { List E };

    ghost view = { λ a. a.items.items };

    ghost invariant = { λ a. IsSortedOnce E.key E.By.cmp a.items.items };
}

impl<E: Keyed> SortedList<E> {
    /// The empty list.
    pub fn new(alloc: Global) -> SortedList<E>
        ensures { result ≡ [] }
    {
        SortedList {
            items: Vec::new(alloc),
        }
    }

    /// Whether elements stand in ascending order of their keys, each key once.
    pub fn is_sorted(items: &[E]) -> bool
        ensures { IsTrue result ↔ IsSortedOnce E.key E.By.cmp items.now }
    {
        items.is_sorted_by(
            |a: &E, b: &E| -> bool
                ensures { result ≡ is_lt (E.By.cmp (E.key a.now) (E.key b.now)) }
            { a.key().cmp(b.key()).is_lt() },
        )
    }

    /// The list of these elements.
    pub fn from_vec(items: Vec<E>) -> SortedList<E>
        requires { IsSortedOnce E.key E.By.cmp items.items }
        ensures { result ≡ items.items }
    {
        SortedList { items }
    }

    pub fn into_vec(self) -> Vec<E>
        ensures value { result.items ≡ self }
        ensures sorted { IsSortedOnce E.key E.By.cmp self }
    {
        self.items
    }

    pub fn as_slice(&self) -> &[E]
        ensures value { result.now ≡ self.now }
        ensures sorted { IsSortedOnce E.key E.By.cmp self.now }
    {
        &self.items
    }

    pub fn len(&self) -> usize
        ensures { result ≡ length self.now }
    {
        self.items.len()
    }

    pub fn is_empty(&self) -> bool
        ensures { IsTrue result ↔ (self.now ≡ []) }
    {
        self.items.is_empty()
    }

    /// The element with a key.
    pub fn get(&self, key: &E::By) -> Option<&E>
        ensures { option_copied result ≡ with_key E.key E.By.eq key.now self.now }
    {
        match self.search(key) {
            Ok(at) => Some(&self.items[at]),
            Err(_) => None,
        }
    }

    pub fn contains(&self, key: &E::By) -> bool
        ensures { result ≡ has_key E.key E.By.eq key.now self.now }
    {
        self.search(key).is_ok()
    }

    /// Adds an element in its place. No element may have its key, which `contains` tells.
    pub fn insert(&mut self, element: E) -> Result<(), NoMemory>
    where
        E: Drop,
        requires new { has_key E.key E.By.eq (E.key element) self.old ≡ false }
        ensures ok { OnOk result (self.new ≡ added E.key E.By.cmp element self.old) }
        ensures err { OnErr result (self.new ≡ self.old) }
    {
        let Err(at) = self.search(element.key()) else {
            unreachable!()
        };
        self.items.insert(at, element)?;
        Ok(())
    }

    /// Takes the element with a key out.
    pub fn remove(&mut self, key: &E::By) -> Option<E>
        ensures element { result ≡ with_key E.key E.By.eq key.now self.old }
        ensures others { self.new ≡ removed E.key E.By.eq key.now self.old }
    {
        match self.search(key) {
            Ok(at) => Some(self.items.remove(at)),
            Err(_) => None,
        }
    }

    // Where the element with a key is, or where it would go.
    pub(crate) fn search(&self, key: &E::By) -> Result<usize, usize>
        ensures { MatchResult result (IsAt E.key E.By.cmp key.now self.now) (IsGap E.key E.By.cmp key.now self.now) }
    {
        self.items.binary_search_by(
            |e: &E| -> Ordering
                ensures { result ≡ E.By.cmp (E.key e.now) key.entry.now }
            { e.key().cmp(key) },
        )
    }
}

impl<E: Keyed + ExactClone> Clone for SortedList<E> {
    ghost is_clone = { λ list copy. copy ≡ list };

    fn clone(&self) -> Result<SortedList<E>, NoMemory> {
        Ok(SortedList {
            items: self.items.clone()?,
        })
    }
}
