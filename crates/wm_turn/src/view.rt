// What a seat of a turnstile knows. It exists in proofs alone: no value of it is made.
use crate::standing::Standing;
use atomic_table::{Join, Seat, Shared, Split, TableRule};
use std::collections::LinkedList;
use std::snapshot::Snapshot;

/// Where a pass stands in the line.
pub enum Stage {
    Idle,
    /// The ticket that it drew.
    Waiting(u64),
    /// Its ticket, the value's mark as the turn began, and the word `failed`.
    Turn(u64, u64, u64),
}

/// What a pass knows. A spent one, which was joined, has no opening value.
pub struct View<O, E> {
    pub opening: Option<O>,
    pub number: u64,
    pub seen: LinkedList<E>,
    pub mine: LinkedList<E>,
    pub mark: u64,
    pub stage: Stage,
    /// How many passes were made from it.
    pub made: u64,
    /// The number and the own entries of each pass that was joined to it.
    pub joined: LinkedList<(u64, LinkedList<E>)>,
    /// What it had seen before its last join.
    pub before: LinkedList<E>,
    /// What the other pass of that join had seen.
    pub beside: LinkedList<E>,
}

/// The rule of a turnstile. The table's key is the value that it was made of, whose opening value all views have.
pub struct Rule;

impl<X: Standing> TableRule<Option<X>, View<X::Opening, X::Entry>, Snapshot<X>> for Rule {
    ghost use Rattle.wm_turn.specs.Rule.{Ruled};
    ghost use Rattle.wm_turn.specs.Views.{first_view};

    ghost holds = { λ made_of. Ruled X.opening X.stands X.mark X.by X.fact (X.opening made_of.value) };

    ghost first = { λ made_of. first_view (X.opening made_of.value) };
}

/// The words and the slot, as threads share them.
pub(crate) type Desk<X> = Shared<
    Option<X>,
    View<<X as Standing>::Opening, <X as Standing>::Entry>,
    Snapshot<X>,
    Rule,
>;

/// A seat at the words and the slot.
pub(crate) type Place<X> = Seat<Option<X>, View<<X as Standing>::Opening, <X as Standing>::Entry>>;

/// A pass is split off.
pub(crate) struct Next;

impl<O, E> Split<View<O, E>> for Next {
    ghost use Rattle.wm_turn.specs.Views.{parted, offspring};

    ghost left = { parted };

    ghost right = { offspring };
}

/// A pass is taken in.
pub(crate) struct Back;

impl<O, E> Join<View<O, E>> for Back {
    ghost use Rattle.wm_turn.specs.Views.{united, spent};

    ghost both = { united };

    ghost spent = { spent };
}
