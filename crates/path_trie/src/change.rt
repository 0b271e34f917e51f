// Values that are put at and taken from some names below a node.
ghost use Rattle.std.specs.Prelude.{◌≡◌, ◌∷◌, [], ◌<◌, ◌≤◌, true, false, length, map, drop, take, is_ok, if◌then◌else◌, insert, IfErr, IfOk, IsOk, OnOk, ◌+◌, ◌^◌, vec_len, vec_capacity};
ghost use Rattle.std.specs.List.{list_all};
ghost use Rattle.path_trie.specs.Entries.{put, value_at, without};
ghost use Rattle.path_trie.specs.Nodes.{are_well, below_node, below_all, comes_before, comes_behind, edge_name, is_well, is_well_edge, has_some, own};

use crate::find::place_of;
use crate::node::{Edge, Node};
use mat_path::Name;
use std::alloc::Global;
use std::mem;

// Puts a value at these names below a node, and gives the one that stood there. For want of memory it gives the value back.
#[cycle(put)]
pub(crate) fn put_at<T: Drop>(
    alloc: Global,
    node: &mut Node<T>,
    names: &[Name],
    value: T,
) -> Result<Option<T>, T>
    requires well { is_well node.old ≡ true }
    requires room { length (below_node node.old) + 1 < 2 ^ 64 }
    ensures list { below_node node.new ≡ (if is_ok result then put names.now value (below_node node.old) else below_node node.old) }
    ensures well { is_well node.new ≡ true }
    ensures old { IfOk result (λ old. old ≡ value_at names.now (below_node node.old)) }
    ensures back { IfErr result (λ back. back ≡ value) }
    ensures more { IfOk result (λ old. length (below_node node.new) + length (own old) ≡ length (below_node node.old) + 1) }
{
    let Node {
        value: own,
        edges,
        count,
    } = node;
    match names {
        [] => Ok(count_put(count, mem::replace(own, Some(value)))),
        [name, more @ ..] => match put_among(alloc, edges, name, more, value) {
            Ok(old) => Ok(count_put(count, old)),
            Err(value) => Err(value),
        },
    }
}

// Counts the entry that was put in place of one, or of none.
fn count_put<T: Drop>(count: &mut usize, old: Option<T>) -> Option<T>
    requires { count.old + 1 < 2 ^ 64 }
    ensures count { count.new + length (own old) ≡ count.old + 1 }
    ensures same { result ≡ old }
{
    match old {
        Some(old) => Some(old),
        None => {
            *count += 1;
            None
        }
    }
}

// The same among some children.
#[cycle(put)]
fn put_among<T: Drop>(
    alloc: Global,
    edges: &mut Vec<Edge<T>>,
    name: &Name,
    more: &[Name],
    value: T,
) -> Result<Option<T>, T>
    requires well { are_well edges.old.items ≡ true }
    requires room { length (below_all edges.old.items) + 1 < 2 ^ 64 }
    ensures list { below_all edges.new.items ≡ (if is_ok result then put (name.now ∷ more.now) value (below_all edges.old.items) else below_all edges.old.items) }
    ensures well { are_well edges.new.items ≡ true }
    ensures old { IfOk result (λ old. old ≡ value_at (name.now ∷ more.now) (below_all edges.old.items)) }
    ensures back { IfErr result (λ back. back ≡ value) }
    ensures more { IfOk result (λ old. length (below_all edges.new.items) + length (own old) ≡ length (below_all edges.old.items) + 1) }
{
    match place_of(edges, name) {
        Ok(place) => put_at(alloc, &mut edges[place].node, more, value),
        Err(place) => match add_edge(alloc, edges, place, name, more, value) {
            Ok(()) => Ok(None),
            Err(value) => Err(value),
        },
    }
}

// Puts a child with this value alone in its place.
#[cycle(grow)]
fn add_edge<T: Drop>(
    alloc: Global,
    edges: &mut Vec<Edge<T>>,
    place: usize,
    name: &Name,
    more: &[Name],
    value: T,
) -> Result<(), T>
    requires place { place ≤ length edges.old.items }
    requires before { list_all (comes_before name.now) (map edge_name (take place edges.old.items)) ≡ true }
    requires behind { list_all (comes_behind name.now) (map edge_name (drop place edges.old.items)) ≡ true }
    requires well { are_well edges.old.items ≡ true }
    ensures list { below_all edges.new.items ≡ (if is_ok result then put (name.now ∷ more.now) value (below_all edges.old.items) else below_all edges.old.items) }
    ensures well { are_well edges.new.items ≡ true }
    ensures back { IfErr result (λ back. back ≡ value) }
    ensures more { OnOk result (length (below_all edges.new.items) ≡ length (below_all edges.old.items) + 1) }
{
    if edges.reserve(1).is_err() {
        return Err(value);
    }
    let Ok(name) = name.copy() else {
        return Err(value);
    };
    match node_of(alloc, more, value) {
        Ok(node) => {
            put_reserved(edges, place, Edge { name, node });
            Ok(())
        }
        Err(value) => Err(value),
    }
}

// The node with this value alone, at these names below it.
#[cycle(grow)]
fn node_of<T: Drop>(alloc: Global, names: &[Name], value: T) -> Result<Node<T>, T>
    ensures list { IfOk result (λ node. below_node node ≡ record { path = names.now; value = value } ∷ []) }
    ensures well { IfOk result (λ node. is_well node ≡ true) }
    ensures back { IfErr result (λ back. back ≡ value) }
{
    let mut edges = Vec::new(alloc);
    match names {
        [] => Ok(Node {
            value: Some(value),
            edges,
            count: 1,
        }),
        [name, more @ ..] => match add_edge(alloc, &mut edges, 0, name, more, value) {
            Ok(()) => Ok(Node {
                value: None,
                edges,
                count: 1,
            }),
            Err(value) => Err(value),
        },
    }
}

// Puts an element in a list that has room for it.
fn put_reserved<X: Drop>(list: &mut Vec<X>, place: usize, element: X)
    requires within { place ≤ vec_len list.old }
    requires room { vec_len list.old < vec_capacity list.old }
    ensures { list.new.items ≡ insert list.old.items place element }
{
    match list.insert(place, element) {
        Ok(()) => {}
        Err(_) => unreachable!(),
    }
}

// Takes the value at these names below a node, and the children below which nothing is left.
#[cycle(take)]
pub(crate) fn take_at<T: Drop>(node: &mut Node<T>, names: &[Name]) -> Option<T>
    requires { is_well node.old ≡ true }
    ensures list { below_node node.new ≡ without names.now (below_node node.old) }
    ensures well { is_well node.new ≡ true }
    ensures value { result ≡ value_at names.now (below_node node.old) }
    ensures less { length (below_node node.new) + length (own result) ≡ length (below_node node.old) }
{
    let Node {
        value,
        edges,
        count,
    } = node;
    match names {
        [] => count_taken(count, value.take()),
        [name, more @ ..] => count_taken(count, take_among(edges, name, more)),
    }
}

// Counts the entry out that was taken, if one was.
pub(crate) fn count_taken<T: Drop>(count: &mut usize, old: Option<T>) -> Option<T>
    requires { length (own old) ≤ count.old }
    ensures count { count.new + length (own old) ≡ count.old }
    ensures same { result ≡ old }
{
    match old {
        Some(old) => {
            *count -= 1;
            Some(old)
        }
        None => None,
    }
}

// The same among some children.
#[cycle(take)]
fn take_among<T: Drop>(edges: &mut Vec<Edge<T>>, name: &Name, more: &[Name]) -> Option<T>
    requires { are_well edges.old.items ≡ true }
    ensures list { below_all edges.new.items ≡ without (name.now ∷ more.now) (below_all edges.old.items) }
    ensures well { are_well edges.new.items ≡ true }
    ensures value { result ≡ value_at (name.now ∷ more.now) (below_all edges.old.items) }
    ensures less { length (below_all edges.new.items) + length (own result) ≡ length (below_all edges.old.items) }
{
    match place_of(edges, name) {
        Ok(place) => {
            let node = &mut edges[place].node;
            let value = take_at(node, more);
            if node.is_bare() {
                edges.remove(place);
                return value;
            }
            value
        }
        Err(_) => None,
    }
}
