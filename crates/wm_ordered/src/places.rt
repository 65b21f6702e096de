// Places that aren't in use.
ghost use Rattle.std.specs.Prelude.{◌≡◌, ℕ, ◌+◌, ◌-◌, ◌<◌, ◌≤◌, length, All, slice_get, vec_len, vec_capacity};
ghost use Rattle.wm_ordered.specs.Tree.{nowhere, same_place, times_in};

use crate::node::{NOWHERE, Node};

/// A place for a pair: one that isn't in use, or a new one.
pub(crate) fn take_place<K: Copy, V: Copy>(
    nodes: &mut Vec<Node<K, V>>,
    free: &mut Vec<u32>,
    pair: (K, V),
) -> u32
    requires few { length free.old.items ≡ 0 → length nodes.old.items < nowhere }
    requires room { length free.old.items ≡ 0 → vec_len nodes.old < vec_capacity nodes.old }
    requires there { All (λ place. place < length nodes.old.items) free.old.items }
    ensures there { result < length nodes.new.items }
    ensures others { (i : ℕ) → i < length nodes.old.items → slice_get nodes.new.items i ≡ slice_get nodes.old.items i }
    ensures apart { (places : ℕ → ℕ) → ((i : ℕ) → places i + times_in i free.old.items ≤ 1) → ((i : ℕ) → 1 ≤ places i → i < length nodes.old.items) → (i : ℕ) → places i + same_place i result + times_in i free.new.items ≤ 1 }
    ensures free { All (λ place. place < length nodes.new.items) free.new.items }
    ensures all { length nodes.new.items + length free.old.items ≡ length nodes.old.items + length free.new.items + 1 }
    ensures fewer { length free.new.items ≡ length free.old.items - 1 }
    ensures capacity { vec_capacity nodes.new ≡ vec_capacity nodes.old }
    ensures free_capacity { vec_capacity free.new ≡ vec_capacity free.old }
{
    if let Some(place) = free.pop() {
        return place;
    }
    let place = nodes.len() as u32;
    nodes.push_reserved(Node {
        pair,
        left: NOWHERE,
        right: NOWHERE,
    });
    place
}

/// Gives a place back.
pub(crate) fn give_place(free: &mut Vec<u32>, place: u32)
    requires room { vec_len free.old < vec_capacity free.old }
    ensures times { (i : ℕ) → times_in i free.new.items ≡ times_in i free.old.items + same_place i place }
    ensures there { (n : ℕ) → place < n → All (λ p. p < n) free.old.items → All (λ p. p < n) free.new.items }
    ensures len { length free.new.items ≡ length free.old.items + 1 }
    ensures capacity { vec_capacity free.new ≡ vec_capacity free.old }
{
    free.push_reserved(place);
}
