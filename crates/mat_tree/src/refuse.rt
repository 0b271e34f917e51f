// Why a list is no tree.
ghost use Rattle.std.specs.Prelude.{◌≡◌, ◌<◌, ◌≤◌, ◌∷◌, [], true, length};
ghost use Rattle.std.specs.List.{list_all, list_any};
ghost use Rattle.mat_tree.specs.Trees.{fault_behind, follows, has_parent, has_rel, is_after, is_dir, is_dir_at, is_in_turn, is_link, tree_refusal};

use crate::flat::{Flat, What};
use crate::refusal::TreeRefusal;
use mat_path::Name;

// The most nodes that a tree has.
const MOST_NODES: usize = 10_000;

// Why a list is no tree, if it is none.
pub(crate) fn refusal_of(nodes: &[Flat]) -> Option<TreeRefusal>
    ensures { result ≡ tree_refusal nodes.now }
{
    match nodes {
        [] => Some(TreeRefusal::NoRoot),
        [root, rest @ ..] => {
            if !root.rel.names().is_empty() {
                return Some(TreeRefusal::NoRoot);
            }
            if is_link(&root.what) {
                return Some(TreeRefusal::RootLink);
            }
            if rest.len() >= MOST_NODES {
                return Some(TreeRefusal::TooMany);
            }
            first_fault(nodes, root, rest)
        }
    }
}

// What the type says of the nodes of a list: each stands at a rel.
pub(crate) fn tell_rels(nodes: &[Flat])
    ensures { list_all has_rel nodes.now ≡ true }
{
    for node in nodes {
        let _names = node.rel.names();
    }
}

// Whether a node is a link.
fn is_link(leaf: &What) -> bool
    ensures { result ≡ is_link leaf.now }
{
    match leaf {
        What::File { .. } => false,
        What::Dir => false,
        What::Link(_) => true,
    }
}

// Whether a node is a directory.
fn is_dir(leaf: &What) -> bool
    ensures { result ≡ is_dir leaf.now }
{
    match leaf {
        What::File { .. } => false,
        What::Dir => true,
        What::Link(_) => false,
    }
}

// The first fault behind the root. A list with none is read once.
fn first_fault(nodes: &[Flat], root: &Flat, rest: &[Flat]) -> Option<TreeRefusal>
    requires few { length rest.now < 10000 }
    requires whole { nodes.now ≡ root.now ∷ rest.now }
    requires root { root.now.rel ≡ [] }
    ensures { result ≡ fault_behind nodes.now root.now 1 rest.now }
{
    if are_in_turn(root, rest) {
        None
    } else {
        search_fault(nodes, root, rest)
    }
}

// Whether each node comes after the one before it and stands in a directory of those before it.
fn are_in_turn(root: &Flat, rest: &[Flat]) -> bool
    ensures { result ≡ is_in_turn root.now rest.now }
{
    let mut before = root;
    for node in rest {
        if !is_after(before, node) || !follows(node.rel.names(), before) {
            return false;
        }
        before = node;
    }
    true
}

/// Whether a node at these names, which aren't the root's, stands in the node before it, a directory, or in a folder of
/// that node's rel.
pub fn follows(names: &[Name], before: &Flat) -> bool
    requires { 1 ≤ length names.now }
    ensures { result ≡ follows names.now before.now }
{
    let parent = &names[..names.len() - 1];
    let place = before.rel.names();
    place.starts_with(parent) && (is_dir(&before.what) || parent.len() < place.len())
}

// The first fault behind the root, by a search of the whole list for each parent.
fn search_fault(nodes: &[Flat], root: &Flat, rest: &[Flat]) -> Option<TreeRefusal>
    requires { length rest.now < 10000 }
    ensures { result ≡ fault_behind nodes.now root.now 1 rest.now }
{
    let mut before = root;
    for (place, node) in rest.iter().enumerate() {
        if !is_after(before, node) {
            return Some(TreeRefusal::Order(place + 1));
        }
        if !has_parent(nodes, node) {
            return Some(TreeRefusal::Under(place + 1));
        }
        before = node;
    }
    None
}

// Whether the second node's rel is greater than the first one's.
fn is_after(before: &Flat, node: &Flat) -> bool
    ensures { result ≡ is_after before.now.rel node.now }
{
    before.rel < node.rel
}

// Whether a list has a directory at the parent of a node.
fn has_parent(nodes: &[Flat], node: &Flat) -> bool
    ensures { result ≡ has_parent nodes.now node.now }
{
    let names = node.rel.names();
    if names.is_empty() {
        return true;
    }
    has_dir_at(nodes, &names[..names.len() - 1])
}

// Whether a list has a directory at these names.
fn has_dir_at(nodes: &[Flat], names: &[Name]) -> bool
    ensures { result ≡ list_any (is_dir_at names.now) nodes.now }
{
    nodes.iter().any(|node| is_dir_at(node, names))
}

// Whether a node is a directory at these names.
fn is_dir_at(node: &Flat, names: &[Name]) -> bool
    ensures { result ≡ is_dir_at names.now node.now }
{
    node.rel.names() == names && is_dir(&node.what)
}
