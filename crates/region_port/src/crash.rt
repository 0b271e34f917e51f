// What a crash makes of the nodes of a disk in memory.
ghost use Rattle.std.specs.Prelude.{◌≡◌, ◌≤◌, ℕ, List, None, if◌then◌else◌, length};
ghost use Rattle.std.specs.List.{list_any};
ghost use Rattle.std.specs.Option.{option_map};
ghost use Rattle.region_port.specs.Crashes.{is_above, left_where, torn_kept, torn_where};
ghost use Rattle.region_port.specs.Entries.{content_of};
ghost use Rattle.region_port.specs.Lists.{all_of};

use crate::node::DiskNode;
use crate::segments::Segments;
use mat_path::{Items, Path};
use path_trie::{Edit, Trie};

/// What a crash leaves of all that is at or below a rough path.
#[derive(Clone, Copy, Debug, PartialEq, Eq)]
pub enum Rest {
    /// Nothing.
    Nothing,
    /// What a read gives.
    Whole,
    /// The same, but of each file the first half of its bytes, rounded down.
    Torn,
}

/// Whether one of some paths is at or above a path.
fn any_above(paths: &[Path], path: &Path) -> bool
    ensures { result ≡ list_any (is_above path.now) paths.now }
{
    paths.iter().any(|above| above.is_prefix(path))
}

/// Whether a path is at or below a rough one.
fn is_rough(rough: &Segments<Path>, path: &Path) -> bool
    ensures { result ≡ list_any (is_above path.now) (all_of rough.now.segments.items) }
{
    let mut found = false;
    for segment in rough.segments.iter() {
        found = found || any_above(segment.as_slice(), path);
    }
    found
}

/// The node with the first half of the bytes of its file.
fn halved(node: DiskNode) -> DiskNode
    ensures { result ≡ torn_kept node }
{
    match node {
        DiskNode::File { bytes, exec } => {
            let mut bytes = bytes.into_vec();
            let half = bytes.len() / 2;
            bytes.truncate(half);
            DiskNode::File {
                bytes: Items::of(bytes),
                exec,
            }
        }
        DiskNode::Dir => DiskNode::Dir,
        DiskNode::Link(target) => DiskNode::Link(target),
    }
}

/// What is torn: the files at or below these rough paths.
#[derive(Drop)]
struct Tears {
    rough: Segments<Path>,
}

impl Edit<Option<DiskNode>> for Tears {
    ghost edited = { λ tears. torn_where (all_of tears.rough.segments.items) };

    fn edit(&self, path: &Path, kept: Option<DiskNode>) -> Option<DiskNode> {
        if is_rough(&self.rough, path) {
            return halved_kept(kept);
        }
        kept
    }
}

/// What is kept, with the first half of the bytes of its file.
fn halved_kept(kept: Option<DiskNode>) -> Option<DiskNode>
    ensures { result ≡ option_map torn_kept kept }
{
    match kept {
        Some(node) => Some(halved(node)),
        None => None,
    }
}

/// Removes the nodes at and below some paths.
fn clear_each(nodes: &mut Trie<Option<DiskNode>>, paths: &[Path])
    ensures content { (path : List (List ℕ)) → content_of nodes.new path ≡ (if list_any (is_above path) paths.now then None else content_of nodes.old path) }
    ensures few { length nodes.new ≤ length nodes.old }
{
    for path in paths {
        nodes.clear_under(path);
    }
}

/// Removes the nodes at and below rough paths.
fn clear_rough(nodes: &mut Trie<Option<DiskNode>>, rough: &Segments<Path>)
    ensures content { (path : List (List ℕ)) → content_of nodes.new path ≡ (if list_any (is_above path) (all_of rough.now.segments.items) then None else content_of nodes.old path) }
    ensures few { length nodes.new ≤ length nodes.old }
{
    for segment in rough.segments.iter() {
        clear_each(nodes, segment.as_slice());
    }
}

/// Leaves of the nodes of a disk what a crash leaves.
pub(crate) fn crash_nodes(nodes: &mut Trie<Option<DiskNode>>, rough: Segments<Path>, rest: Rest)
    ensures content { (path : List (List ℕ)) → content_of nodes.new path ≡ left_where (list_any (is_above path) (all_of rough.segments.items)) rest (content_of nodes.old path) }
    ensures few { length nodes.new ≤ length nodes.old }
{
    match rest {
        Rest::Nothing => clear_rough(nodes, &rough),
        Rest::Whole => {}
        Rest::Torn => nodes.edit(&Tears { rough }),
    }
}
