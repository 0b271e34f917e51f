// Walks along some names below a node.
ghost use Rattle.std.specs.Prelude.{◌≡◌, ◌+◌, ◌≤◌, ◌++◌, true, length, map, IfSome, OnOk};
ghost use Rattle.std.specs.List.{filter, find, list_any};
ghost use Rattle.std.specs.Option.{option_map};
ghost use Rattle.path_trie.specs.Entries.{is_above, overlaps};
ghost use Rattle.path_trie.specs.Nodes.{below_node, is_well, own};
ghost use Rattle.path_trie.specs.Walks.{counted_from, kept_path};

use crate::entry::Entry;
use crate::find::place_of;
use crate::node::Node;
use crate::steps::Steps;
use mat_path::{Memory, Name, Path};
use std::sync::ledger::Ledger;

// The entry at the fewest of these names below a node, and the number of its names behind `depth` others. Each node on the way
// is a visit.
pub(crate) fn cover_at<'a, L: Ledger, T>(
    node: &'a Node<T>,
    names: &[Name],
    depth: usize,
    steps: &mut Steps<L>,
) -> Option<(usize, &'a T)>
    requires well { is_well node.now ≡ true }
    requires depth { depth + length names.now ≤ 64 }
    ensures value { option_map (λ seen. (seen.0, seen.1.now)) result ≡ option_map (counted_from depth) (find (is_above names.now) (below_node node.now)) }
    ensures most { steps.new ≤ steps.old + length names.now + 1 }
    ensures least { steps.old + 1 ≤ steps.new }
    ensures exact { IfSome result (λ seen. steps.new + depth ≡ steps.old + seen.0 + 1) }
{
    steps.tick();
    match &node.value {
        Some(value) => Some((depth, value)),
        None => match names {
            [] => None,
            [name, more @ ..] => match place_of(&node.edges, name) {
                Ok(place) => cover_at(&node.edges[place].node, more, depth + 1, steps),
                Err(_) => None,
            },
        },
    }
}

// Whether an entry stands at, above or below these names.
pub(crate) fn overlaps_at<T>(node: &Node<T>, names: &[Name]) -> bool
    requires { is_well node.now ≡ true }
    ensures { result ≡ list_any (overlaps names.now) (below_node node.now) }
{
    match &node.value {
        Some(_) => true,
        None => match names {
            [] => !node.is_bare(),
            [name, more @ ..] => match place_of(&node.edges, name) {
                Ok(place) => overlaps_at(&node.edges[place].node, more),
                Err(_) => false,
            },
        },
    }
}

// Appends the paths of the entries at, above and below these names, in order.
pub(crate) fn gather_at<V>(
    node: &Node<Entry<V>>,
    names: &[Name],
    found: &mut Vec<Path>,
) -> Result<(), Memory>
    requires { is_well node.now ≡ true }
    ensures { OnOk result (found.new.items ≡ found.old.items ++ map kept_path (filter (overlaps names.now) (below_node node.now))) }
{
    match names {
        [] => gather_all(node, found),
        [name, more @ ..] => {
            gather_own(&node.value, found)?;
            match place_of(&node.edges, name) {
                Ok(place) => gather_at(&node.edges[place].node, more, found),
                Err(_) => Ok(()),
            }
        }
    }
}

// Appends the paths of all entries at and below a node, in order.
fn gather_all<V>(node: &Node<Entry<V>>, found: &mut Vec<Path>) -> Result<(), Memory>
    ensures { OnOk result (found.new.items ≡ found.old.items ++ map kept_path (below_node node.now)) }
{
    gather_own(&node.value, found)?;
    for edge in &node.edges {
        gather_all(&edge.node, found)?;
    }
    Ok(())
}

// Appends the path of the entry at a node, if one stands there.
fn gather_own<V>(value: &Option<Entry<V>>, found: &mut Vec<Path>) -> Result<(), Memory>
    ensures { OnOk result (found.new.items ≡ found.old.items ++ map kept_path (own value.now)) }
{
    match value {
        None => Ok(()),
        Some(entry) => {
            found.push(entry.path.copy()?)?;
            Ok(())
        }
    }
}
