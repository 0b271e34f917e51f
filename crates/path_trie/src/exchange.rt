// What stands at and below some names below two nodes, exchanged.
ghost use Rattle.std.specs.Prelude.{◌≡◌, ◌+◌, ◌<◌, ◌≤◌, ◌∷◌, ◌^◌, true, length};
ghost use Rattle.std.specs.List.{filter};
ghost use Rattle.path_trie.specs.Entries.{is_under, spliced};
ghost use Rattle.path_trie.specs.Nodes.{are_well, below_all, below_node, is_well};

use crate::find::place_of;
use crate::node::{Edge, Node};
use mat_path::Name;
use std::mem;

// Exchanges what two nodes have at and below these names. Both have something there, and it is told how many values each gives.
#[cycle(exchange)]
pub(crate) fn exchange_at<T: Drop>(
    node: &mut Node<T>,
    other: &mut Node<T>,
    names: &[Name],
    given: usize,
    got: usize,
)
    requires well { is_well node.old ≡ true }
    requires other_well { is_well other.old ≡ true }
    requires given { given ≡ length (filter (is_under names.now) (below_node node.old)) }
    requires got { got ≡ length (filter (is_under names.now) (below_node other.old)) }
    requires some { 0 < given }
    requires other_some { 0 < got }
    requires room { length (below_node node.old) + length (below_node other.old) < 2 ^ 64 }
    ensures list { below_node node.new ≡ spliced names.now (below_node other.old) (below_node node.old) }
    ensures other_list { below_node other.new ≡ spliced names.now (below_node node.old) (below_node other.old) }
    ensures well { is_well node.new ≡ true }
    ensures other_well { is_well other.new ≡ true }
    ensures count { length (below_node node.new) + given ≡ length (below_node node.old) + got }
    ensures other_count { length (below_node other.new) + got ≡ length (below_node other.old) + given }
{
    match names {
        [] => mem::swap(node, other),
        [name, more @ ..] => {
            let Node {
                value: _,
                edges,
                count,
            } = node;
            let Node {
                value: _,
                edges: others,
                count: other_count,
            } = other;
            exchange_among(edges, others, name, more, given, got);
            recount(count, given, got);
            recount(other_count, got, given);
        }
    }
}

// Counts what a node gave and got.
fn recount(count: &mut usize, given: usize, got: usize)
    requires given { given ≤ count.old }
    requires room { count.old + got < 2 ^ 64 }
    ensures { count.new + given ≡ count.old + got }
{
    *count = *count - given + got;
}

// The same among the children of two nodes.
#[cycle(exchange)]
fn exchange_among<T: Drop>(
    edges: &mut Vec<Edge<T>>,
    others: &mut Vec<Edge<T>>,
    name: &Name,
    more: &[Name],
    given: usize,
    got: usize,
)
    requires well { are_well edges.old.items ≡ true }
    requires other_well { are_well others.old.items ≡ true }
    requires given { given ≡ length (filter (is_under (name.now ∷ more.now)) (below_all edges.old.items)) }
    requires got { got ≡ length (filter (is_under (name.now ∷ more.now)) (below_all others.old.items)) }
    requires some { 0 < given }
    requires other_some { 0 < got }
    requires room { length (below_all edges.old.items) + length (below_all others.old.items) < 2 ^ 64 }
    ensures list { below_all edges.new.items ≡ spliced (name.now ∷ more.now) (below_all others.old.items) (below_all edges.old.items) }
    ensures other_list { below_all others.new.items ≡ spliced (name.now ∷ more.now) (below_all edges.old.items) (below_all others.old.items) }
    ensures well { are_well edges.new.items ≡ true }
    ensures other_well { are_well others.new.items ≡ true }
    ensures count { length (below_all edges.new.items) + given ≡ length (below_all edges.old.items) + got }
    ensures other_count { length (below_all others.new.items) + got ≡ length (below_all others.old.items) + given }
{
    match place_of(edges, name) {
        Ok(place) => match place_of(others, name) {
            Ok(other) => exchange_at(
                &mut edges[place].node,
                &mut others[other].node,
                more,
                given,
                got,
            ),
            Err(_) => unreachable!(),
        },
        Err(_) => unreachable!(),
    }
}
