// Entries by their place in order of path.
ghost use Rattle.std.specs.Prelude.{◌≡◌, ◌≤◌, true, length, IfNone, IfSome};
ghost use Rattle.std.specs.List.{slice_get};
ghost use Rattle.std.specs.Option.{option_copied, option_map};
ghost use Rattle.path_trie.specs.Entries.{value_of};
ghost use Rattle.path_trie.specs.Nodes.{are_well, below_all, below_node, is_well, own};
ghost use Rattle.path_trie.specs.Walks.{IsAmong};

use crate::node::{Edge, Node};

// The k-th value at and below a node.
pub(crate) fn value_at<'a, T>(node: &'a Node<T>, k: usize) -> Option<&'a T>
    requires { is_well node.now ≡ true }
    ensures { option_copied result ≡ option_map value_of (slice_get (below_node node.now) k) }
{
    let own = own_len(&node.value);
    if k < own {
        return node.value.as_ref();
    }
    match place_among(&node.edges, k - own) {
        Some((place, left)) => value_at(&node.edges[place].node, left),
        None => None,
    }
}

// How many entries stand at a node itself.
fn own_len<T>(value: &Option<T>) -> usize
    ensures { result ≡ length (own value.now) }
{
    match value {
        Some(_) => 1,
        None => 0,
    }
}

// The child below which the k-th of all values stands, and its place there.
fn place_among<T>(edges: &[Edge<T>], k: usize) -> Option<(usize, usize)>
    requires { are_well edges.now ≡ true }
    ensures some { IfSome result (λ found. IsAmong edges.now k found.0 found.1) }
    ensures none { IfNone result (length (below_all edges.now) ≤ k) }
{
    let mut left = k;
    for (place, edge) in edges.iter().enumerate() {
        let count = edge.node.len();
        if left < count {
            return Some((place, left));
        }
        left -= count;
    }
    None
}
