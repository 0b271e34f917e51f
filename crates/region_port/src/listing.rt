ghost use Rattle.std.specs.Prelude.{◌≡◌, ◌++◌, ℕ, List, true, false, None, Some, if◌then◌else◌, IfOk, OnOk};
ghost use Rattle.std.specs.Option.{option_map, option_or};
ghost use Rattle.std.specs.BTreeMap.{get, IsOrdered};
ghost use Rattle.mat_path.specs.Names.{is_rel, path_cmp, same_names};
ghost use Rattle.mat_tree.specs.Parts.{Node, below, declared_by};
ghost use Rattle.mat_tree.specs.Trees.{ascends, what_at};
ghost use Rattle.region_port.specs.Entries.{content_of, node_at, node_kept};
ghost use Rattle.region_port.specs.Listing.{Lists, flats_of, form_of, list_failed, seen_of, shown};

use crate::listed::{Form, Listed, Seen};
use crate::node::DiskNode;
use crate::nodes::next_under;
use mat_digest::Digest;
use mat_path::{Items, Memory, Name, Path, Rel};
use mat_tree::{Flat, What};
use path_trie::Trie;
use std::alloc::Global;
use std::collections::BTreeMap;

/// How many nodes a region lists at most.
const MOST_NODES: usize = 10_000;

/// What a node is shown as.
pub trait View: Drop {
    ghost show: { Node → Self };

    /// What this node is shown as.
    fn of(node: &DiskNode) -> Result<Self, Memory>
        ensures { IfOk result (λ view. view ≡ show (node_kept node.now)) };
}

impl View for What {
    ghost show = { declared_by };

    fn of(node: &DiskNode) -> Result<What, Memory> {
        match node {
            DiskNode::Dir => Ok(What::Dir),
            DiskNode::File { bytes, exec } => Ok(What::File {
                digest: Digest::of(bytes.as_slice()),
                exec: *exec,
            }),
            DiskNode::Link(target) => Ok(What::Link(target.copy()?)),
        }
    }
}

impl View for Form {
    ghost show = { form_of };

    fn of(node: &DiskNode) -> Result<Form, Memory> {
        match node {
            DiskNode::Dir => Ok(Form::Dir),
            DiskNode::File { bytes, exec } => Ok(Form::File {
                exec: *exec,
                size: bytes.as_slice().len() as u64,
            }),
            DiskNode::Link(target) => Ok(Form::Link(target.copy()?)),
        }
    }
}

/// Adds a node at these names; it takes the place of an earlier one.
fn add_node<V: View>(
    alloc: Global,
    names: &[Name],
    node: &DiskNode,
    nodes: &mut BTreeMap<Rel, V>,
) -> Result<(), Memory>
    requires { is_rel names.now ≡ true }
    ensures ok { OnOk result ((rel : List (List ℕ)) → get path_cmp nodes.new rel ≡ (if same_names names.now rel then Some (V.show (node_kept node.now)) else get path_cmp nodes.old rel)) }
{
    let rel = Rel::of(alloc, names)?;
    let view = V::of(node)?;
    nodes.insert(rel, view)?;
    Ok(())
}

/// Adds a node where it is at or below the path.
fn add_below<V: View>(
    alloc: Global,
    path: &Path,
    at: &Path,
    node: &DiskNode,
    nodes: &mut BTreeMap<Rel, V>,
) -> Result<(), Memory>
    ensures ok { OnOk result ((rel : List (List ℕ)) → get path_cmp nodes.new rel ≡ (if same_names at.now (path.now ++ rel) then Some (V.show (node_kept node.now)) else get path_cmp nodes.old rel)) }
{
    let _whole = at.names();
    match path.below(at) {
        Some(names) => add_node(alloc, names, node, nodes),
        None => Ok(()),
    }
}

/// Adds what is kept at a path, where that is at or below the path.
fn add_kept<V: View>(
    alloc: Global,
    path: &Path,
    at: &Path,
    kept: &Option<DiskNode>,
    nodes: &mut BTreeMap<Rel, V>,
) -> Result<(), Memory>
    ensures ok { OnOk result ((rel : List (List ℕ)) → get path_cmp nodes.new rel ≡ (if same_names at.now (path.now ++ rel) then option_or (option_map V.show (node_at (Some kept.now))) (get path_cmp nodes.old rel) else get path_cmp nodes.old rel)) }
{
    match kept {
        Some(node) => add_below(alloc, path, at, node, nodes),
        None => Ok(()),
    }
}

/// The nodes at and below the path, by their rels.
fn nodes_below<V: View>(
    alloc: Global,
    path: &Path,
    entries: &Trie<Option<DiskNode>>,
) -> Result<BTreeMap<Rel, V>, Memory>
    ensures ok { IfOk result (λ nodes. (rel : List (List ℕ)) → get path_cmp nodes rel ≡ shown V.show path.now entries.now rel) }
{
    entries.is_in_order();
    let mut nodes = BTreeMap::new(alloc);
    let mut last = None;
    'entries: while let Some((at, kept)) = next_under(entries, path, last) {
        add_kept(alloc, path, at, kept, &mut nodes)?;
        last = Some(at);
    }
    Ok(nodes)
}

/// The nodes of a map, in order of rel.
fn flat_of(alloc: Global, map: BTreeMap<Rel, What>) -> Result<Vec<Flat>, Memory>
    ensures ok { IfOk result (λ nodes. nodes.items ≡ flats_of map.entries) }
    ensures ordered { IsOrdered path_cmp map }
{
    let _ordered = map.len();
    let mut nodes = Vec::new(alloc);
    for (rel, what) in map {
        nodes.push(Flat { rel, what })?;
    }
    Ok(nodes)
}

/// The nodes at and below the path, with rels from it, in strict order of rel.
pub(crate) fn listed(
    alloc: Global,
    path: &Path,
    entries: &Trie<Option<DiskNode>>,
) -> Result<Vec<Flat>, Memory>
    ensures ascending { IfOk result (λ nodes. ascends nodes.items ≡ true) }
    ensures ok { IfOk result (λ nodes. (rel : List (List ℕ)) → shown declared_by path.now entries.now rel ≡ what_at nodes.items rel) }
{
    let nodes = nodes_below(alloc, path, entries)?;
    flat_of(alloc, nodes)
}

/// The forms of a map, in order of rel.
fn seen_in(alloc: Global, map: BTreeMap<Rel, Form>) -> Result<Vec<Seen>, Memory>
    ensures ok { IfOk result (λ nodes. nodes.items ≡ seen_of map.entries) }
{
    let mut nodes = Vec::new(alloc);
    for (rel, what) in map {
        nodes.push(Seen { rel, what })?;
    }
    Ok(nodes)
}

/// What some entries have at and below the path.
pub(crate) fn seen(alloc: Global, path: &Path, entries: &Trie<Option<DiskNode>>) -> Listed
    ensures listed { Lists (Some (below path.now (content_of entries.now))) result }
    ensures answer { list_failed result ≡ false }
{
    let Ok(forms) = nodes_below(alloc, path, entries) else {
        return Listed::NoMemory;
    };
    if forms.len() > MOST_NODES {
        return Listed::Many;
    }
    match seen_in(alloc, forms) {
        Ok(nodes) => Listed::Nodes(Items::of(nodes)),
        Err(_) => Listed::NoMemory,
    }
}
