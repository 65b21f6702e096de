// What is found in a tree, where it is sorted. The depth is how many levels a tree has at the most, and only shows that a call
// ends.
ghost use Rattle.std.specs.Prelude.{◌≡◌, ℕ, ◌≤◌, List, length, slice_get};
ghost use Rattle.wm_ordered.specs.Ordered.{value_at, first_from, first_above};
ghost use Rattle.wm_ordered.specs.Tree.{nowhere, IsSearchTree};

use crate::links::node_at;
use crate::node::Node;
use std::cmp::Ordering;

/// The value of a key.
pub(crate) fn value_of<K: Ord + Copy, V: Copy>(
    nodes: &[Node<K, V>],
    root: u32,
    key: &K,
    depth: usize,
) -> Option<V>
    requires few { length nodes.now ≤ nowhere }
    ensures { (places : ℕ → ℕ) (pairs : List (K × V)) → IsSearchTree K.cmp nodes.now root depth places pairs → result ≡ value_at K.eq key.now pairs }
{
    if depth == 0 {
        return None;
    }
    let Some(node) = node_at(nodes, root) else {
        return None;
    };
    match node.pair.0.cmp(key) {
        Ordering::Less => value_of(nodes, node.right, key, depth - 1),
        Ordering::Equal => Some(node.pair.1),
        Ordering::Greater => value_of(nodes, node.left, key, depth - 1),
    }
}

/// The pair of the least key.
pub(crate) fn least<K: Ord + Copy, V: Copy>(
    nodes: &[Node<K, V>],
    root: u32,
    depth: usize,
) -> Option<(K, V)>
    requires few { length nodes.now ≤ nowhere }
    ensures { (places : ℕ → ℕ) (pairs : List (K × V)) → IsSearchTree K.cmp nodes.now root depth places pairs → result ≡ slice_get pairs 0 }
{
    if depth == 0 {
        return None;
    }
    let Some(node) = node_at(nodes, root) else {
        return None;
    };
    least(nodes, node.left, depth - 1).or(Some(node.pair))
}

/// The pair of the least key that isn't below a key.
pub(crate) fn least_from<K: Ord + Copy, V: Copy>(
    nodes: &[Node<K, V>],
    root: u32,
    key: &K,
    depth: usize,
) -> Option<(K, V)>
    requires few { length nodes.now ≤ nowhere }
    ensures { (places : ℕ → ℕ) (pairs : List (K × V)) → IsSearchTree K.cmp nodes.now root depth places pairs → result ≡ first_from K.cmp key.now pairs }
{
    if depth == 0 {
        return None;
    }
    let Some(node) = node_at(nodes, root) else {
        return None;
    };
    if node.pair.0.cmp(key).is_lt() {
        least_from(nodes, node.right, key, depth - 1)
    } else {
        least_from(nodes, node.left, key, depth - 1).or(Some(node.pair))
    }
}

/// The pair of the least key above a key.
pub(crate) fn least_above<K: Ord + Copy, V: Copy>(
    nodes: &[Node<K, V>],
    root: u32,
    key: &K,
    depth: usize,
) -> Option<(K, V)>
    requires few { length nodes.now ≤ nowhere }
    ensures { (places : ℕ → ℕ) (pairs : List (K × V)) → IsSearchTree K.cmp nodes.now root depth places pairs → result ≡ first_above K.cmp key.now pairs }
{
    if depth == 0 {
        return None;
    }
    let Some(node) = node_at(nodes, root) else {
        return None;
    };
    if node.pair.0.cmp(key).is_gt() {
        least_above(nodes, node.left, key, depth - 1).or(Some(node.pair))
    } else {
        least_above(nodes, node.right, key, depth - 1)
    }
}
