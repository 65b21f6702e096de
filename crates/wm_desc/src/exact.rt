// Clones that are equal to what they were made from.
ghost use Rattle.std.specs.Prelude.{◌≡◌};
ghost use Rattle.std.proofs.Common.{rules};

use crate::{AutoEntry, Jobd, Jobq, PreEntry, Program, QueueEntry, RouteEntry, Sbsd};
use wm_base::{Class, QName};

/// Of such a type each clone is equal to its source, so a list of its values is cloned exactly.
pub trait ExactClone: Clone {
    ghost exact: { (value copy : Self) → Self.is_clone value copy → copy ≡ value };
}

impl ExactClone for QueueEntry {
    ghost exact = { Prim.search rules };
}

impl ExactClone for RouteEntry {
    ghost exact = { Prim.search rules };
}

impl ExactClone for AutoEntry {
    ghost exact = { Prim.search rules };
}

impl ExactClone for PreEntry {
    ghost exact = { Prim.search rules };
}

impl ExactClone for Class {
    ghost exact = { Prim.search rules };
}

impl ExactClone for Jobq {
    ghost exact = { Prim.search rules };
}

impl ExactClone for Program {
    ghost exact = { Prim.search rules };
}

impl ExactClone for Jobd {
    ghost exact = { Prim.search rules };
}

impl ExactClone for Sbsd {
    ghost exact = { Prim.search rules };
}

impl<V: ExactClone> ExactClone for (QName, V) {
    ghost exact = { Prim.search (rules, V.exact) };
}
