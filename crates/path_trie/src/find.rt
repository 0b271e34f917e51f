// What stands at some names below a node.
ghost use Rattle.std.specs.Prelude.{◌≡◌, ◌<◌, ◌≤◌, ◌++◌, true, false, length, map, drop, take, slice_index_or, IfErr, IfOk};
ghost use Rattle.std.specs.List.{filter, list_all};
ghost use Rattle.std.specs.Option.{option_copied};
ghost use Rattle.path_trie.specs.Entries.{is_under, value_at};
ghost use Rattle.path_trie.specs.Nodes.{are_in_order, below_node, comes_before, comes_behind, edge_name, is_well};

use crate::node::{Edge, Node};
use mat_path::Name;

// The place of the child of this name, found by halves, or the place where it would stand.
pub(crate) fn place_of<T>(edges: &[Edge<T>], name: &Name) -> Result<usize, usize>
    requires { are_in_order (map edge_name edges.now) ≡ true }
    ensures within { IfOk result (λ k. k < length edges.now) }
    ensures found { IfOk result (λ k. slice_index_or (map edge_name edges.now) k name.now ≡ name.now) }
    ensures place { IfErr result (λ k. k ≤ length edges.now) }
    ensures before { IfErr result (λ k. list_all (comes_before name.now) (map edge_name (take k edges.now)) ≡ true) }
    ensures behind { IfErr result (λ k. list_all (comes_behind name.now) (map edge_name (drop k edges.now)) ≡ true) }
{
    edges.binary_search_by(|edge| edge.name.cmp(name))
}

// The value at these names below a node, if one stands there.
pub(crate) fn get_at<'a, T>(node: &'a Node<T>, names: &[Name]) -> Option<&'a T>
    requires { is_well node.now ≡ true }
    ensures { option_copied result ≡ value_at names.now (below_node node.now) }
{
    match names {
        [] => node.value.as_ref(),
        [name, more @ ..] => match place_of(&node.edges, name) {
            Ok(place) => get_at(&node.edges[place].node, more),
            Err(_) => None,
        },
    }
}

// The value at these names and then more below a node, if one stands there.
pub(crate) fn get_below<'a, T>(node: &'a Node<T>, names: &[Name], more: &[Name]) -> Option<&'a T>
    requires { is_well node.now ≡ true }
    ensures { option_copied result ≡ value_at (names.now ++ more.now) (below_node node.now) }
{
    match names {
        [] => get_at(node, more),
        [name, rest @ ..] => match place_of(&node.edges, name) {
            Ok(place) => get_below(&node.edges[place].node, rest, more),
            Err(_) => None,
        },
    }
}

// How many values stand at and below these names below a node.
pub(crate) fn count_at<T>(node: &Node<T>, names: &[Name]) -> usize
    requires { is_well node.now ≡ true }
    ensures { result ≡ length (filter (is_under names.now) (below_node node.now)) }
{
    match names {
        [] => node.len(),
        [name, more @ ..] => match place_of(&node.edges, name) {
            Ok(place) => count_at(&node.edges[place].node, more),
            Err(_) => 0,
        },
    }
}
