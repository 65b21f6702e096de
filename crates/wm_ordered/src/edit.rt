// Trees that are changed in place, cut and joined, by links alone: no node is moved. The depth is how many levels a tree has
// at the most, and only shows that a call ends.
ghost use Rattle.std.specs.Prelude.{◌≡◌, ℕ, ◌+◌, ◌<◌, ◌≤◌, List, ◌++◌, length, slice_get, option_map, Some};
ghost use Rattle.wm_desc.specs.Sorted.{added, removed};
ghost use Rattle.wm_ordered.specs.Ordered.{key_of, value_at, with_value};
ghost use Rattle.wm_ordered.specs.Tree.{nowhere, same_place, Stands, Own, Elsewhere, IsSearchTree, IsSplit, IsWithout};

use crate::links::{link_left, link_right, node_at, put_node};
use crate::node::{NOWHERE, Node};
use crate::weight::weight;
use std::cmp::Ordering;

/// The roots of what lies below a key, and of the rest.
pub(crate) fn split<K: Ord + Copy, V: Copy>(
    nodes: &mut [Node<K, V>],
    root: u32,
    key: &K,
    depth: usize,
) -> (u32, u32)
    requires few { length nodes.old ≤ nowhere }
    ensures parts { (places : ℕ → ℕ) (pairs : List (K × V)) → IsSearchTree K.cmp nodes.old root depth places pairs → IsSplit K.cmp key.now nodes.new places pairs result.0 result.1 }
    ensures elsewhere { (places : ℕ → ℕ) (pairs : List (K × V)) → IsSearchTree K.cmp nodes.old root depth places pairs → Elsewhere places nodes.old nodes.new }
    ensures len { length nodes.new ≡ length nodes.old }
{
    if depth == 0 {
        return (NOWHERE, NOWHERE);
    }
    let Some(node) = node_at(nodes, root) else {
        return (NOWHERE, NOWHERE);
    };
    if node.pair.0.cmp(key).is_lt() {
        let (low, high) = split(nodes, node.right, key, depth - 1);
        link_right(nodes, root, low);
        (root, high)
    } else {
        let (low, high) = split(nodes, node.left, key, depth - 1);
        link_left(nodes, root, high);
        (low, root)
    }
}

/// The root of two trees, one behind the other.
pub(crate) fn merge<K: Copy, V: Copy>(
    nodes: &mut [Node<K, V>],
    first: u32,
    second: u32,
    depth: usize,
) -> u32
    requires few { length nodes.old ≤ nowhere }
    ensures whole { (p q : ℕ → ℕ) (low high : List (K × V)) → Stands nodes.old first p low → Stands nodes.old second q high → Own (λ i. p i + q i) → length low + length high ≤ depth → Stands nodes.new result (λ i. p i + q i) (low ++ high) }
    ensures elsewhere { (p q : ℕ → ℕ) (low high : List (K × V)) → Stands nodes.old first p low → Stands nodes.old second q high → Own (λ i. p i + q i) → length low + length high ≤ depth → Elsewhere (λ i. p i + q i) nodes.old nodes.new }
    ensures len { length nodes.new ≡ length nodes.old }
{
    if depth == 0 {
        return NOWHERE;
    }
    let Some(upper) = node_at(nodes, first) else {
        return second;
    };
    let Some(lower) = node_at(nodes, second) else {
        return first;
    };
    if weight(first) >= weight(second) {
        let rest = merge(nodes, upper.right, second, depth - 1);
        link_right(nodes, first, rest);
        first
    } else {
        let rest = merge(nodes, first, lower.left, depth - 1);
        link_left(nodes, second, rest);
        second
    }
}

/// Gives a key that is there another value, and answers the one that it had.
pub(crate) fn set_value<K: Ord + Copy, V: Copy>(
    nodes: &mut [Node<K, V>],
    root: u32,
    key: &K,
    value: V,
    depth: usize,
) -> Option<V>
    requires few { length nodes.old ≤ nowhere }
    ensures was { (places : ℕ → ℕ) (pairs : List (K × V)) → IsSearchTree K.cmp nodes.old root depth places pairs → result ≡ value_at K.eq key.now pairs }
    ensures items { (places : ℕ → ℕ) (pairs : List (K × V)) → IsSearchTree K.cmp nodes.old root depth places pairs → Stands nodes.new root places (with_value K.eq key.now value pairs) }
    ensures elsewhere { (places : ℕ → ℕ) (pairs : List (K × V)) → IsSearchTree K.cmp nodes.old root depth places pairs → Elsewhere places nodes.old nodes.new }
    ensures len { length nodes.new ≡ length nodes.old }
{
    if depth == 0 {
        return None;
    }
    let Some(node) = node_at(nodes, root) else {
        return None;
    };
    match node.pair.0.cmp(key) {
        Ordering::Less => set_value(nodes, node.right, key, value, depth - 1),
        Ordering::Equal => {
            let was = node.pair.1;
            let node = Node {
                pair: (node.pair.0, value),
                left: node.left,
                right: node.right,
            };
            put_node(nodes, root, node);
            Some(was)
        }
        Ordering::Greater => set_value(nodes, node.left, key, value, depth - 1),
    }
}

/// Puts a node of a pair, at a place where none of the tree stands, below the nodes of greater weight. It answers the new root.
pub(crate) fn put_in<K: Ord + Copy, V: Copy>(
    nodes: &mut [Node<K, V>],
    root: u32,
    place: u32,
    pair: (K, V),
    depth: usize,
) -> u32
    requires few { length nodes.old ≤ nowhere }
    requires there { place < length nodes.old }
    ensures items { (places : ℕ → ℕ) (pairs : List (K × V)) → IsSearchTree K.cmp nodes.old root depth places pairs → places place ≡ 0 → Stands nodes.new result (λ i. places i + same_place i place) (added key_of K.cmp pair pairs) }
    ensures elsewhere { (places : ℕ → ℕ) (pairs : List (K × V)) → IsSearchTree K.cmp nodes.old root depth places pairs → places place ≡ 0 → Elsewhere (λ i. places i + same_place i place) nodes.old nodes.new }
    ensures len { length nodes.new ≡ length nodes.old }
{
    let Some(node) = node_at(nodes, root) else {
        return put_here(nodes, root, place, pair, depth);
    };
    if depth == 0 || weight(root) < weight(place) {
        return put_here(nodes, root, place, pair, depth);
    }
    if node.pair.0.cmp(&pair.0).is_lt() {
        let right = put_in(nodes, node.right, place, pair, depth - 1);
        link_right(nodes, root, right);
        root
    } else {
        let left = put_in(nodes, node.left, place, pair, depth - 1);
        link_left(nodes, root, left);
        root
    }
}

// Puts a node of a pair above all of a tree.
fn put_here<K: Ord + Copy, V: Copy>(
    nodes: &mut [Node<K, V>],
    root: u32,
    place: u32,
    pair: (K, V),
    depth: usize,
) -> u32
    requires few { length nodes.old ≤ nowhere }
    requires there { place < length nodes.old }
    ensures items { (places : ℕ → ℕ) (pairs : List (K × V)) → IsSearchTree K.cmp nodes.old root depth places pairs → places place ≡ 0 → Stands nodes.new result (λ i. places i + same_place i place) (added key_of K.cmp pair pairs) }
    ensures elsewhere { (places : ℕ → ℕ) (pairs : List (K × V)) → IsSearchTree K.cmp nodes.old root depth places pairs → places place ≡ 0 → Elsewhere (λ i. places i + same_place i place) nodes.old nodes.new }
    ensures len { length nodes.new ≡ length nodes.old }
{
    let (left, right) = split(nodes, root, &pair.0, depth);
    put_node(nodes, place, Node { pair, left, right });
    place
}

/// Takes out the node of a key. It answers the new root, and the node's place with its value.
pub(crate) fn take_out<K: Ord + Copy, V: Copy>(
    nodes: &mut [Node<K, V>],
    root: u32,
    key: &K,
    depth: usize,
) -> (u32, Option<(u32, V)>)
    requires few { length nodes.old ≤ nowhere }
    ensures items { (places : ℕ → ℕ) (pairs : List (K × V)) → IsSearchTree K.cmp nodes.old root depth places pairs → IsWithout nodes.new result.0 places (removed key_of K.eq key.now pairs) result.1 }
    ensures value { (places : ℕ → ℕ) (pairs : List (K × V)) → IsSearchTree K.cmp nodes.old root depth places pairs → option_map (λ taken. taken.1) result.1 ≡ value_at K.eq key.now pairs }
    ensures elsewhere { (places : ℕ → ℕ) (pairs : List (K × V)) → IsSearchTree K.cmp nodes.old root depth places pairs → Elsewhere places nodes.old nodes.new }
    ensures len { length nodes.new ≡ length nodes.old }
{
    if depth == 0 {
        return (root, None);
    }
    let Some(node) = node_at(nodes, root) else {
        return (root, None);
    };
    match node.pair.0.cmp(key) {
        Ordering::Less => {
            let (right, taken) = take_out(nodes, node.right, key, depth - 1);
            link_right(nodes, root, right);
            (root, taken)
        }
        Ordering::Equal => {
            let value = node.pair.1;
            (
                merge(nodes, node.left, node.right, depth),
                Some((root, value)),
            )
        }
        Ordering::Greater => {
            let (left, taken) = take_out(nodes, node.left, key, depth - 1);
            link_left(nodes, root, left);
            (root, taken)
        }
    }
}
