// The calls that a disk in memory makes on the trie of its nodes.
ghost use Rattle.std.specs.Prelude.{◌≡◌, true, None, Some, if◌then◌else◌, IfOk, OnErr, OnOk};
ghost use Rattle.std.specs.List.{filter, find};
ghost use Rattle.std.specs.Option.{is_some, option_map};
ghost use Rattle.path_trie.specs.Entries.{both, cut_at, is_under, put, value_at};
ghost use Rattle.region_port.specs.Entries.{is_later, is_later_under};

use crate::node::DiskNode;
use mat_path::{Memory, Path};
use path_trie::Trie;

/// The first entry at or below a path, behind another path, if one is given.
pub(crate) fn next_under<'a>(
    nodes: &'a Trie<Option<DiskNode>>,
    path: &Path,
    last: Option<&Path>,
) -> Option<(&'a Path, &'a Option<DiskNode>)>
    ensures { option_map (λ seen. (seen.0.now, seen.1.now)) result ≡ option_map both (find (is_later_under path.now (option_map (λ path. path.now) last.entry)) nodes.now) }
{
    match last {
        Some(last) => nodes.next_under(path, last),
        None => nodes.first_under(path),
    }
}

/// The first entry of all, behind a path, if one is given.
pub(crate) fn next_of_all<'a>(
    nodes: &'a Trie<Option<DiskNode>>,
    last: Option<&Path>,
) -> Option<(&'a Path, &'a Option<DiskNode>)>
    ensures { option_map (λ seen. (seen.0.now, seen.1.now)) result ≡ option_map both (find (is_later (option_map (λ path. path.now) last.entry)) nodes.now) }
{
    match last {
        Some(last) => nodes.first_behind(last),
        None => nodes.at(0),
    }
}

/// Puts a node at a path.
pub(crate) fn put_node(
    nodes: &mut Trie<Option<DiskNode>>,
    path: &Path,
    node: DiskNode,
) -> Result<(), Memory>
    ensures nodes { OnOk result (nodes.new ≡ put path.now (Some node) nodes.old) }
    ensures same { OnErr result (nodes.new ≡ nodes.old) }
{
    match nodes.insert(path, Some(node)) {
        Ok(_) => Ok(()),
        Err(_) => Err(Memory),
    }
}

/// Takes out what is kept at a path, and keeps its place. Takes no memory.
pub(crate) fn lift(nodes: &mut Trie<Option<DiskNode>>, path: &Path) -> Option<Option<DiskNode>>
    ensures kept { result ≡ value_at path.now nodes.old }
    ensures nodes { nodes.new ≡ (if is_some result then put path.now None nodes.old else nodes.old) }
{
    match nodes.replace(path, None) {
        Ok(kept) => Some(kept),
        Err(_) => None,
    }
}

/// Puts back what was taken out. Takes no memory.
pub(crate) fn put_back(nodes: &mut Trie<Option<DiskNode>>, path: &Path, kept: Option<DiskNode>)
    requires { is_some (value_at path.now nodes.old) ≡ true }
    ensures { nodes.new ≡ put path.now kept nodes.old }
{
    let _place = nodes.replace(path, kept);
}

/// Cuts out what is at and below a path, and keeps its place.
pub(crate) fn cut_part(
    nodes: &mut Trie<Option<DiskNode>>,
    path: &Path,
) -> Result<Trie<Option<DiskNode>>, Memory>
    ensures nodes { OnOk result (nodes.new ≡ cut_at path.now None nodes.old) }
    ensures same { OnErr result (nodes.new ≡ nodes.old) }
    ensures part { IfOk result (λ part. part ≡ filter (is_under path.now) nodes.old) }
{
    match nodes.cut(path, None) {
        Ok(part) => Ok(part),
        Err(_) => Err(Memory),
    }
}
