// Nodes.

/// The place of no node.
pub(crate) const NOWHERE: u32 = u32::MAX;

/// A node of a search tree. All nodes lie in one vector, and `left` and `right` are the places there of the roots of what lies
/// on both sides of its pair.
#[derive(Clone, Copy)]
pub(crate) struct Node<K: Copy, V: Copy> {
    pub(crate) pair: (K, V),
    pub(crate) left: u32,
    pub(crate) right: u32,
}
