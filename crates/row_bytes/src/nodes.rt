// The nodes of a tree, read in flat order.
ghost use Rattle.std.specs.Prelude.{◌≡◌, ◌≤◌, ◌∷◌, [], true, length, IfOk};
ghost use Rattle.mat_path.specs.Names.{rel_of};
ghost use Rattle.mat_tree.specs.Trees.{IsTree};
ghost use Rattle.row_bytes.specs.Reading as Spec;

use crate::fields::{place, read_count, read_digest, read_mark, read_text};
use crate::mark::Mark;
use crate::refusal::RowRefusal;
use mat_path::{Memory, PathRefusal, Rel, Target};
use mat_tree::{Flat, Tree, What, follows};
use std::alloc::Global;

// The target that a text is, if it is one.
fn target_of(alloc: Global, text: &[u8]) -> Result<Option<Target>, Memory>
    ensures { IfOk result (λ target. target ≡ Spec.target_of text.now) }
{
    match Target::read(alloc, text) {
        Ok(target) => Ok(Some(target)),
        Err(PathRefusal::NoMemory) => Err(Memory),
        Err(_) => Ok(None),
    }
}

// The target that begins at an offset.
fn fitting_target(alloc: Global, at: usize, text: &[u8]) -> Result<Target, RowRefusal>
    ensures { Spec.Gives (λ x. x) result (Spec.fitting at (Spec.target_of text.now)) }
{
    match target_of(alloc, text) {
        Ok(Some(target)) => Ok(target),
        Ok(None) => Err(RowRefusal::Bad(at)),
        Err(Memory) => Err(RowRefusal::NoMemory),
    }
}

// The target of a link.
#[tactic(auto, unfolding(crate::specs::Reading::target_at))]
fn read_target(alloc: Global, bytes: &[u8], end: usize) -> Result<(Target, &[u8]), RowRefusal>
    ensures { Spec.Gives (λ x. (x.0, x.1.now)) result (Spec.target_at end bytes.now) }
{
    let (text, rest) = read_text(bytes, end)?;
    let target = fitting_target(alloc, place(text, place(rest, end)), text)?;
    Ok((target, rest))
}

// The rel that a text spells, if it spells one.
fn rel_of(alloc: Global, text: &[u8]) -> Result<Option<Rel>, Memory>
    ensures { IfOk result (λ rel. rel ≡ rel_of text.now) }
{
    match Rel::read(alloc, text) {
        Ok(rel) => Ok(Some(rel)),
        Err(PathRefusal::NoMemory) => Err(Memory),
        Err(_) => Ok(None),
    }
}

// The rel that begins at an offset.
fn fitting_rel(alloc: Global, at: usize, text: &[u8]) -> Result<Rel, RowRefusal>
    ensures { Spec.Gives (λ x. x) result (Spec.fitting at (rel_of text.now)) }
{
    match rel_of(alloc, text) {
        Ok(Some(rel)) => Ok(rel),
        Ok(None) => Err(RowRefusal::Bad(at)),
        Err(Memory) => Err(RowRefusal::NoMemory),
    }
}

// Whether a rel may come behind a node: then its directory is that node, or a folder of it.
fn may_follow(last: &Flat, rel: &Rel) -> bool
    ensures { result ≡ Spec.may_follow last.now rel.now }
{
    last.rel < *rel && follows(rel.names(), last)
}

// Whether a rel may come behind these nodes. In time that doesn't grow with their number.
fn may_come(nodes: &[Flat], rel: &Rel) -> bool
    requires { Spec.is_begun nodes.now ≡ true }
    ensures { result ≡ Spec.may_come nodes.now rel.now }
{
    match nodes.last() {
        Some(last) => may_follow(last, rel),
        None => false,
    }
}

// A rel that begins at an offset, if it may come behind these nodes.
fn coming(nodes: &[Flat], at: usize, rel: Rel) -> Result<Rel, RowRefusal>
    requires { Spec.is_begun nodes.now ≡ true }
    ensures { Spec.Gives (λ x. x) result (Spec.fitting at (Spec.coming nodes.now rel)) }
{
    if may_come(nodes, &rel) {
        Ok(rel)
    } else {
        Err(RowRefusal::Bad(at))
    }
}

// The rel of the next node.
#[tactic(auto, unfolding(crate::specs::Reading::rel_at))]
fn read_rel<'a>(
    alloc: Global,
    nodes: &[Flat],
    bytes: &'a [u8],
    end: usize,
) -> Result<(Rel, &'a [u8]), RowRefusal>
    requires { Spec.is_begun nodes.now ≡ true }
    ensures { Spec.Gives (λ x. (x.0, x.1.now)) result (Spec.rel_at nodes.now end bytes.now) }
{
    let (text, rest) = read_text(bytes, end)?;
    let at = place(text, place(rest, end));
    let rel = fitting_rel(alloc, at, text)?;
    let rel = coming(nodes, at, rel)?;
    Ok((rel, rest))
}

// What a file is, behind its rel.
#[tactic(auto, unfolding(crate::specs::Reading::what_at))]
fn read_file(exec: bool, bytes: &[u8], end: usize) -> Result<(What, &[u8]), RowRefusal>
    ensures { Spec.Gives (λ x. (x.0, x.1.now)) result (Spec.what_at (Mark.File exec) end bytes.now) }
{
    let (digest, rest) = read_digest(bytes, end)?;
    Ok((What::File { digest, exec }, rest))
}

// What a link is, behind its rel.
#[tactic(auto, unfolding(crate::specs::Reading::what_at))]
fn read_link(alloc: Global, bytes: &[u8], end: usize) -> Result<(What, &[u8]), RowRefusal>
    ensures { Spec.Gives (λ x. (x.0, x.1.now)) result (Spec.what_at Mark.Link end bytes.now) }
{
    let (target, rest) = read_target(alloc, bytes, end)?;
    Ok((What::Link(target), rest))
}

// What a node is, behind its rel.
#[tactic(auto, unfolding(crate::specs::Reading::what_at))]
fn read_what(
    alloc: Global,
    mark: Mark,
    bytes: &[u8],
    end: usize,
) -> Result<(What, &[u8]), RowRefusal>
    ensures { Spec.Gives (λ x. (x.0, x.1.now)) result (Spec.what_at mark end bytes.now) }
{
    match mark {
        Mark::File { exec } => read_file(exec, bytes, end),
        Mark::Dir => Ok((What::Dir, bytes)),
        Mark::Link => read_link(alloc, bytes, end),
    }
}

// The next node, behind those that were read before.
#[tactic(auto, unfolding(crate::specs::Reading::node_at))]
fn read_node<'a>(
    alloc: Global,
    nodes: &[Flat],
    bytes: &'a [u8],
    end: usize,
) -> Result<(Flat, &'a [u8]), RowRefusal>
    requires { Spec.is_begun nodes.now ≡ true }
    ensures { Spec.Gives (λ x. (x.0, x.1.now)) result (Spec.node_at nodes.now end bytes.now) }
{
    let (mark, rest) = read_mark(bytes, end)?;
    let (rel, rest) = read_rel(alloc, nodes, rest, end)?;
    let (what, rest) = read_what(alloc, mark, rest, end)?;
    Ok((Flat { rel, what }, rest))
}

// A list with a node at the root.
fn rooted(alloc: Global, what: What) -> Result<Vec<Flat>, Memory>
    ensures { IfOk result (λ nodes. nodes.items ≡ Spec.rooted what) }
{
    let mut nodes = Vec::new(alloc);
    nodes.push(Flat {
        rel: Rel::root(alloc),
        what,
    })?;
    Ok(nodes)
}

// So many nodes behind the root.
fn read_nodes(
    alloc: Global,
    count: u32,
    bytes: &[u8],
    end: usize,
) -> Result<(Vec<Flat>, &[u8]), RowRefusal>
    ensures { Spec.Gives (λ x. (x.0.items, x.1.now)) result (Spec.nodes_at count (Spec.rooted What.Dir) end bytes.now) }
{
    let mut nodes = rooted(alloc, What::Dir)?;
    let mut rest = bytes;
    for _ in 0..count {
        let (node, behind) = read_node(alloc, nodes.as_slice(), rest, end)?;
        nodes.push(node)?;
        rest = behind;
    }
    Ok((nodes, rest))
}

// A file at the root.
#[tactic(auto, unfolding(crate::specs::Reading::file_at))]
fn read_root_file(
    alloc: Global,
    exec: bool,
    bytes: &[u8],
    end: usize,
) -> Result<(Vec<Flat>, &[u8]), RowRefusal>
    ensures { Spec.Gives (λ x. (x.0.items, x.1.now)) result (Spec.file_at exec end bytes.now) }
{
    let (digest, rest) = read_digest(bytes, end)?;
    let nodes = rooted(alloc, What::File { digest, exec })?;
    Ok((nodes, rest))
}

// A directory at the root.
#[tactic(auto, unfolding(crate::specs::Reading::dir_at))]
fn read_root_dir(alloc: Global, bytes: &[u8], end: usize) -> Result<(Vec<Flat>, &[u8]), RowRefusal>
    ensures { Spec.Gives (λ x. (x.0.items, x.1.now)) result (Spec.dir_at end bytes.now) }
{
    let (count, rest) = read_count(bytes, end)?;
    read_nodes(alloc, count, rest, end)
}

// What stands behind the kind of the root, which stands at an offset.
fn read_root(
    alloc: Global,
    mark: Mark,
    at: usize,
    bytes: &[u8],
    end: usize,
) -> Result<(Vec<Flat>, &[u8]), RowRefusal>
    ensures { Spec.Gives (λ x. (x.0.items, x.1.now)) result (Spec.root_at mark at end bytes.now) }
{
    match mark {
        Mark::File { exec } => read_root_file(alloc, exec, bytes, end),
        Mark::Dir => read_root_dir(alloc, bytes, end),
        Mark::Link => Err(RowRefusal::Bad(at)),
    }
}

// The nodes of a tree, from the kind of its root on.
#[tactic(auto, unfolding(crate::specs::Reading::tree_at))]
fn read_list(alloc: Global, bytes: &[u8], end: usize) -> Result<(Vec<Flat>, &[u8]), RowRefusal>
    ensures { Spec.Gives (λ x. (x.0.items, x.1.now)) result (Spec.tree_at end bytes.now) }
{
    let (mark, rest) = read_mark(bytes, end)?;
    read_root(alloc, mark, place(bytes, end), rest, end)
}

// The tree of nodes that are one.
fn tree_of(alloc: Global, nodes: &[Flat]) -> Result<Tree, RowRefusal>
    requires { IsTree nodes.now }
    ensures { Spec.Gives (λ x. x) result (Ok nodes.now) }
{
    match Tree::from_flat(alloc, nodes) {
        Ok(tree) => Ok(tree),
        Err(_) => Err(RowRefusal::NoMemory),
    }
}

// A tree, from the kind of its root on.
pub(crate) fn read_tree(
    alloc: Global,
    bytes: &[u8],
    end: usize,
) -> Result<(Tree, &[u8]), RowRefusal>
    ensures { Spec.Gives (λ x. (x.0, x.1.now)) result (Spec.tree_at end bytes.now) }
{
    let (nodes, rest) = read_list(alloc, bytes, end)?;
    let tree = tree_of(alloc, nodes.as_slice())?;
    Ok((tree, rest))
}
