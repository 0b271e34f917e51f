// Files of a part: pieces of them, and more of them.
ghost use Rattle.std.specs.Prelude.{◌≡◌, ◌++◌, ◌≤◌, true, false, if◌then◌else◌, Some, IfOk, IfErr, length};
ghost use Rattle.std.specs.Option.{option_map, OnSome};
ghost use Rattle.mat_path.specs.Names.{is_path, same_names};
ghost use Rattle.region_port.specs.Calls.{appended, with_more};
ghost use Rattle.region_port.specs.Entries.{content_of, node_at, node_kept};
ghost use Rattle.region_port.specs.Reads.{IsCopy, file_bytes, got_failed, piece};

use crate::got::Got;
use crate::node::DiskNode;
use crate::nodes::{lift, put_back};
use mat_path::{Items, Path, Rel};
use path_trie::Trie;
use std::alloc::Global;

/// The bytes of the file at the rel from a place.
pub(crate) fn file_at<'a>(
    nodes: &'a Trie<Option<DiskNode>>,
    place: &Path,
    rel: &Rel,
) -> Option<&'a [u8]>
    ensures bytes { option_map (λ bytes. bytes.now) result ≡ file_bytes (content_of nodes.entry.now (place.now ++ rel.now)) }
    ensures path { OnSome result (is_path (place.now ++ rel.now) ≡ true) }
{
    match nodes.entry_below(place, rel.names()) {
        Some((path, kept)) => {
            let _names = path.names();
            bytes_kept(kept)
        }
        None => None,
    }
}

/// The bytes of a file that is kept.
fn bytes_kept(kept: &Option<DiskNode>) -> Option<&[u8]>
    ensures { option_map (λ bytes. bytes.now) result ≡ file_bytes (node_at (Some kept.now)) }
{
    match kept {
        Some(node) => node.bytes(),
        None => None,
    }
}

/// At most `most` bytes from the offset `at` on.
fn piece_of(bytes: &[u8], at: u64, most: u32) -> &[u8]
    ensures { result.now ≡ piece at most bytes.entry.now }
{
    let rest = if at < bytes.len() as u64 {
        &bytes[at as usize..]
    } else {
        &[]
    };
    if (most as usize) < rest.len() {
        &rest[..most as usize]
    } else {
        rest
    }
}

/// The answer with a piece of these bytes.
pub(crate) fn copied(alloc: Global, bytes: &[u8], at: u64, most: u32) -> Got
    ensures bytes { IsCopy (piece at most bytes.now) result }
    ensures answer { got_failed result ≡ false }
{
    match Vec::from_slice(alloc, piece_of(bytes, at, most)) {
        Ok(bytes) => Got::Bytes(Items::of(bytes)),
        Err(_) => Got::NoMemory,
    }
}

/// The node with more bytes at the end of its file. Where memory is wanting it comes back as it was.
pub(crate) fn grown(node: DiskNode, more: &[u8]) -> Result<DiskNode, DiskNode>
    ensures ok { IfOk result (λ new. node_kept new ≡ with_more more.now (node_kept node)) }
    ensures err { IfErr result (λ old. node_kept old ≡ node_kept node) }
{
    match node {
        DiskNode::File { bytes, exec } => {
            let mut bytes = bytes.into_vec();
            match bytes.extend_from_slice(more) {
                Ok(()) => Ok(DiskNode::File {
                    bytes: Items::of(bytes),
                    exec,
                }),
                Err(_) => Err(DiskNode::File {
                    bytes: Items::of(bytes),
                    exec,
                }),
            }
        }
        DiskNode::Dir => Ok(DiskNode::Dir),
        DiskNode::Link(target) => Ok(DiskNode::Link(target)),
    }
}

/// Adds bytes at the end of the file at the path, and answers whether there was memory for them; else nothing changes.
pub(crate) fn grow_at(nodes: &mut Trie<Option<DiskNode>>, path: &Path, more: &[u8]) -> bool
    ensures done { result ≡ true → content_of nodes.new ≡ appended path.now more.now (content_of nodes.old) }
    ensures same { result ≡ false → content_of nodes.new ≡ content_of nodes.old }
    ensures few { length nodes.new ≤ length nodes.old }
{
    let Some(kept) = lift(nodes, path) else {
        return true;
    };
    let (kept, done) = more_kept(kept, more);
    put_back(nodes, path, kept);
    done
}

/// What is kept, with more bytes at the end of its file, and whether there was memory for them; else it is as it was.
fn more_kept(kept: Option<DiskNode>, more: &[u8]) -> (Option<DiskNode>, bool)
    ensures { node_at (Some result.0) ≡ (if result.1 then option_map (with_more more.now) (node_at (Some kept)) else node_at (Some kept)) }
{
    match kept {
        Some(node) => match grown(node, more) {
            Ok(node) => (Some(node), true),
            Err(node) => (Some(node), false),
        },
        None => (None, true),
    }
}
