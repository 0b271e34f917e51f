// How the strays of a disk in memory are found.
ghost use Rattle.std.specs.Prelude.{◌≡◌, ◌&&◌, ◌||◌, ◌≤◌, ℕ, List, Some, IfOk, OnOk};
ghost use Rattle.std.specs.BTreeSet.{contains};
ghost use Rattle.std.specs.Option.{is_some};
ghost use Rattle.mat_path.specs.Covering.{covering};
ghost use Rattle.mat_path.specs.Names.{path_cmp, same_names};
ghost use Rattle.path_trie.specs.Entries.{put};
ghost use Rattle.region_port.specs.Entries.{content_of, node_at};
ghost use Rattle.region_port.specs.Strays.{AreFound, Gathers, is_apart, is_below_last, is_clear};

use crate::node::DiskNode;
use crate::nodes::next_of_all;
use mat_path::{Items, Memory, Path};
use path_trie::Trie;
use std::alloc::Global;
use std::collections::BTreeSet;

/// What a search for strays answers.
#[derive(Debug, Drop)]
pub enum Strays {
    /// These, in path order.
    Found(Items<Path>),
    /// The device failed.
    Failed,
    /// Want of memory.
    NoMemory,
}

/// Some paths as a map, in which what overlaps a path is found by its names.
fn map_of(alloc: Global, paths: &[Path]) -> Result<Trie<()>, Memory>
    ensures { IfOk result (λ map. (path : List (List ℕ)) → is_clear map path ≡ is_apart paths.now path) }
{
    let mut map = Trie::new(alloc);
    for path in paths {
        add_path(&mut map, path)?;
    }
    Ok(map)
}

/// Adds a path to a map.
fn add_path(map: &mut Trie<()>, path: &Path) -> Result<(), Memory>
    ensures { OnOk result (map.new ≡ put path.now tt map.old) }
{
    match map.insert(path, ()) {
        Ok(_) => Ok(()),
        Err(()) => Err(Memory),
    }
}

/// Adds a path that overlaps no known path.
fn add_apart(known: &Trie<()>, at: &Path, found: &mut BTreeSet<Path>) -> Result<(), Memory>
    ensures { OnOk result ((path : List (List ℕ)) → contains path_cmp found.new path ≡ ((same_names at.now path && is_clear known.now path) || contains path_cmp found.old path)) }
{
    if !known.overlaps(at) {
        found.insert(at.copy()?)?;
    }
    Ok(())
}

/// Adds a path where a node is kept and that overlaps no known path.
fn add_candidate(
    known: &Trie<()>,
    at: &Path,
    kept: &Option<DiskNode>,
    found: &mut BTreeSet<Path>,
) -> Result<(), Memory>
    ensures { OnOk result ((path : List (List ℕ)) → contains path_cmp found.new path ≡ ((is_some (node_at (Some kept.now)) && (same_names at.now path && is_clear known.now path)) || contains path_cmp found.old path)) }
{
    match kept {
        Some(_) => add_apart(known, at, found),
        None => Ok(()),
    }
}

/// The paths of the nodes that overlap no known path.
fn candidates_in(
    alloc: Global,
    known: &Trie<()>,
    entries: &Trie<Option<DiskNode>>,
) -> Result<BTreeSet<Path>, Memory>
    ensures { IfOk result (λ found. (path : List (List ℕ)) → contains path_cmp found path ≡ (is_some (content_of entries.now path) && is_clear known.now path)) }
{
    entries.is_in_order();
    let mut found = BTreeSet::new(alloc);
    let mut last = None;
    'entries: while let Some((at, kept)) = next_of_all(entries, last) {
        add_candidate(known, at, kept, &mut found)?;
        last = Some(at);
    }
    Ok(found)
}

/// Whether a path is at or below the last of some.
fn is_below_last(found: &[Path], path: &Path) -> bool
    ensures { result ≡ is_below_last found.now path.now }
{
    match found.last() {
        Some(last) => last.is_prefix(path),
        None => false,
    }
}

/// Those of some paths that have no other one above them.
fn topmost(alloc: Global, mut paths: BTreeSet<Path>) -> Result<Vec<Path>, Memory>
    ensures { IfOk result (λ found. Gathers paths.keys found.items) }
{
    let _ordered = paths.len();
    let mut found: Vec<Path> = Vec::new(alloc);
    'paths: while let Some(path) = paths.pop_first() {
        if !is_below_last(found.as_slice(), &path) {
            found.push(path)?;
        }
    }
    Ok(found)
}

/// The strays among the nodes of some entries.
pub(crate) fn strays_of(
    alloc: Global,
    known: &[Path],
    entries: &Trie<Option<DiskNode>>,
) -> Result<Vec<Path>, Memory>
    requires { (path : List (List ℕ)) → covering path known.now ≤ 1 }
    ensures { IfOk result (λ found. AreFound known.now (Some (content_of entries.now)) found.items) }
{
    let map = map_of(alloc, known)?;
    let paths = candidates_in(alloc, &map, entries)?;
    topmost(alloc, paths)
}
