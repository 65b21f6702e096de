// How nodes are linked.
ghost use Rattle.std.specs.Prelude.{◌≡◌, ◌<◌, length, slice_get, Some};
ghost use Rattle.wm_ordered.specs.declared.node.Node.{Node};
ghost use Rattle.wm_ordered.specs.Tree.{same_place, Elsewhere};

use crate::node::Node;

/// The node of a place.
pub(crate) fn node_at<K: Copy, V: Copy>(nodes: &[Node<K, V>], place: u32) -> Option<Node<K, V>>
    ensures { result ≡ slice_get nodes.now place }
{
    nodes.get(place as usize).copied()
}

/// Gives the node of a place another root of what lies left of it.
pub(crate) fn link_left<K: Copy, V: Copy>(nodes: &mut [Node<K, V>], place: u32, left: u32)
    requires { place < length nodes.old }
    ensures here { (node : Node K V) → slice_get nodes.old place ≡ Some node → slice_get nodes.new place ≡ Some (record node { left = left }) }
    ensures others { Elsewhere (λ i. same_place i place) nodes.old nodes.new }
    ensures len { length nodes.new ≡ length nodes.old }
{
    nodes[place as usize].left = left;
}

/// Gives the node of a place another root of what lies right of it.
pub(crate) fn link_right<K: Copy, V: Copy>(nodes: &mut [Node<K, V>], place: u32, right: u32)
    requires { place < length nodes.old }
    ensures here { (node : Node K V) → slice_get nodes.old place ≡ Some node → slice_get nodes.new place ≡ Some (record node { right = right }) }
    ensures others { Elsewhere (λ i. same_place i place) nodes.old nodes.new }
    ensures len { length nodes.new ≡ length nodes.old }
{
    nodes[place as usize].right = right;
}

/// Puts a node at a place.
pub(crate) fn put_node<K: Copy, V: Copy>(nodes: &mut [Node<K, V>], place: u32, node: Node<K, V>)
    requires { place < length nodes.old }
    ensures here { slice_get nodes.new place ≡ Some node }
    ensures others { Elsewhere (λ i. same_place i place) nodes.old nodes.new }
    ensures len { length nodes.new ≡ length nodes.old }
{
    nodes[place as usize] = node;
}
