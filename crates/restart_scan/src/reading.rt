// Kept rows, read from the rows of the state store.
ghost use Rattle.std.specs.Prelude.{◌≡◌, ◌≤◌, [], length, true, false, map, Err, IfOk, OnOk, None, Some};
ghost use Rattle.std.specs.List.{list_all};
ghost use Rattle.std.specs.Option.{option_map};
ghost use Rattle.mat_path.specs.Names.{joined};
ghost use Rattle.mat_tree.specs.Trees.{is_placed};
ghost use Rattle.keep_port.specs.Rows.{ascend};
ghost use Rattle.core_laws.specs.Stored.{IsReadable, identity_of, raw_row};
ghost use Rattle.row_bytes.specs.Rows.{IsRow, row_bytes};
ghost use Rattle.model_laws.specs.KeptRules.{KeptAscend};
ghost use Rattle.restart_scan.specs.Opened.{AreKept, are_kept_apart};
ghost use Rattle.restart_scan.specs.Rows as Spec;
ghost use Rattle.restart_scan.specs.Stores.{AreOf, IsAdded};
ghost use Rattle.restart_scan.specs.Faults.{disk_failed, keeper_failed};

use crate::kept::{Body, Kept};
use crate::refusal::ScanRefusal;
use keep_port::RawRow;
use mat_path::{Items, Memory, Path, PathRefusal};
use mat_tree::{Flat, Tree};
use row_bytes::{KeptTree, RowRefusal, read_row};
use std::alloc::Global;
use std::collections::BTreeMap;

// The refusal of a text that is no path.
fn bad_path(alloc: Global, text: &[u8]) -> ScanRefusal
    ensures { Spec.Gives (λ path. path) (Err result) (Spec.spelled text.now None) }
{
    match Vec::from_slice(alloc, text) {
        Ok(text) => ScanRefusal::BadPath(Items::of(text)),
        Err(_) => ScanRefusal::NoMemory,
    }
}

// The path that a text spells.
#[tactic(auto, using(crate::proofs::StoredRows::path_text))]
fn read_path(alloc: Global, text: &[u8]) -> Result<Path, ScanRefusal>
    ensures text { IfOk result (λ path. joined path ≡ text.now) }
    ensures read { Spec.Gives (λ path. path) result (Spec.path_in text.now) }
{
    match Path::read(alloc, text) {
        Ok(path) => Ok(path),
        Err(PathRefusal::NoMemory) => Err(ScanRefusal::NoMemory),
        Err(_) => Err(bad_path(alloc, text)),
    }
}

// The refusal of the row at a path.
fn bad_row(path: &Path, at: usize) -> ScanRefusal
    ensures { Spec.Gives (λ kept. kept) (Err result) (Spec.read_at path.now (Err at)) }
{
    match path.copy() {
        Ok(path) => ScanRefusal::BadRow {
            path,
            at: at as u64,
        },
        Err(Memory) => ScanRefusal::NoMemory,
    }
}

// What the bytes of the row at a path are read as.
fn read_tree(alloc: Global, path: &Path, body: &[u8]) -> Result<KeptTree, ScanRefusal>
    ensures row { IfOk result (λ kept. IsRow body.now kept) }
    ensures read { Spec.Gives (λ kept. kept) result (Spec.tree_in path.now body.now) }
{
    match read_row(alloc, body) {
        Ok(kept) => Ok(kept),
        Err(RowRefusal::Bad(at)) => Err(bad_row(path, at)),
        Err(RowRefusal::NoMemory) => Err(ScanRefusal::NoMemory),
    }
}

// Whether a node of the tree at a path is at a path itself.
fn is_placed(path: &Path, node: &Flat) -> bool
    ensures { result ≡ is_placed path.now node.now }
{
    path.can_join(&node.rel)
}

// Whether each of these nodes is.
fn are_placed(path: &Path, nodes: &[Flat]) -> bool
    ensures { result ≡ list_all (is_placed path.now) nodes.now }
{
    nodes.iter().all(|node| is_placed(path, node))
}

// Whether each node of a tree is.
fn places_all(path: &Path, tree: &Tree) -> Result<bool, Memory>
    ensures { IfOk result (λ all. all ≡ list_all (is_placed path.now) tree.now) }
{
    let nodes = tree.flat()?;
    Ok(are_placed(path, nodes.as_slice()))
}

// A tree at a path, each of whose nodes is at a path.
fn placed(path: &Path, kept: KeptTree) -> Result<KeptTree, ScanRefusal>
    ensures same { IfOk result (λ whole. whole ≡ kept) }
    ensures read { Spec.Gives (λ kept. kept) result (Spec.placed_at path.now kept) }
{
    match places_all(path, &kept.tree) {
        Ok(true) => Ok(kept),
        Ok(false) => Err(bad_row(path, 0)),
        Err(Memory) => Err(ScanRefusal::NoMemory),
    }
}

// The refusal of the row at a path that is of another folder.
fn foreign(path: &Path, found: u64) -> ScanRefusal
    ensures { Spec.Gives (λ body. body) (Err result) (Spec.strange path.now found) }
{
    match path.copy() {
        Ok(path) => ScanRefusal::Foreign { path, found },
        Err(Memory) => ScanRefusal::NoMemory,
    }
}

// A row that is of the folder with a number.
fn own(identity: u64, path: &Path, kept: KeptTree, last: u64) -> Result<Body, ScanRefusal>
    ensures tree { IfOk result (λ body. body.tree ≡ kept.tree) }
    ensures last { IfOk result (λ body. last ≡ body.last) }
    ensures number { IfOk result (λ body. identity_of identity (Spec.kept_at (path.now, body)) ≡ kept.identity) }
    ensures read { Spec.Gives (λ body. body) result (Spec.own_row identity path.now kept.tree last kept.identity) }
{
    let KeptTree {
        tree,
        identity: named,
    } = kept;
    match named {
        None => Ok(Body {
            tree,
            last,
            new: false,
        }),
        Some(found) => {
            if found == identity {
                Ok(Body {
                    tree,
                    last,
                    new: true,
                })
            } else {
                Err(foreign(path, found))
            }
        }
    }
}

// What a row of the state store says of its path.
#[tactic(auto, using(crate::proofs::StoredRows::body_same, crate::proofs::StoredRows::body_readable), unfolding(crate::specs::Rows::body_in))]
fn read_body(alloc: Global, identity: u64, path: &Path, raw: &RawRow) -> Result<Body, ScanRefusal>
    ensures bytes { IfOk result (λ body. raw.now.body ≡ row_bytes (identity_of identity (Spec.kept_at (path.now, body))) body.tree) }
    ensures last { IfOk result (λ body. raw.now.last ≡ body.last) }
    ensures readable { IfOk result (λ body. IsReadable (Spec.kept_at (path.now, body))) }
    ensures read { Spec.Gives (λ body. body) result (Spec.body_in identity path.now raw.now) }
{
    let _names = path.names();
    let kept = read_tree(alloc, path, raw.body.as_slice())?;
    let whole = placed(path, kept)?;
    own(identity, path, whole, raw.last)
}

// What a row of the state store says.
#[tactic(auto, using(crate::proofs::StoredRows::row_same), unfolding(crate::specs::Rows::row_in))]
fn read_one(alloc: Global, identity: u64, raw: &RawRow) -> Result<(Path, Body), ScanRefusal>
    ensures row { IfOk result (λ pair. raw.now ≡ raw_row identity (Spec.kept_at pair)) }
    ensures readable { IfOk result (λ pair. IsReadable (Spec.kept_at pair)) }
    ensures read { Spec.Gives (λ pair. pair) result (Spec.row_in identity raw.now) }
{
    let path = read_path(alloc, raw.path.as_slice())?;
    let body = read_body(alloc, identity, &path, raw)?;
    Ok((path, body))
}

// Puts a row of the state store into its place among those that were read before.
#[tactic(auto, using(crate::proofs::ReadRows::puts, crate::proofs::ReadRows::adds))]
fn add_one(
    alloc: Global,
    identity: u64,
    raw: &RawRow,
    rows: &mut BTreeMap<Path, Body>,
) -> Result<(), ScanRefusal>
    ensures added { OnOk result (IsAdded identity raw.now (Spec.kept_in rows.old.entries) (Spec.kept_in rows.new.entries)) }
    ensures adds { Spec.Adds (Spec.row_in identity raw.now) (Spec.kept_in rows.old.entries) (Spec.kept_in rows.new.entries) result }
{
    let (path, body) = read_one(alloc, identity, raw)?;
    rows.insert(path, body)?;
    Ok(())
}

// All rows, by their paths.
fn read_each(
    alloc: Global,
    identity: u64,
    raws: &[RawRow],
) -> Result<BTreeMap<Path, Body>, ScanRefusal>
    requires { ascend raws.now ≡ true }
    ensures store { IfOk result (λ rows. AreOf identity (Spec.kept_in rows.entries) raws.now) }
    ensures read { Spec.Gives (λ rows. Spec.kept_in rows.entries) result (Spec.read_more identity [] raws.now) }
{
    let mut rows = BTreeMap::new(alloc);
    for raw in raws {
        add_one(alloc, identity, raw, &mut rows)?;
    }
    Ok(rows)
}

// The rows of a map, in order.
#[tactic(auto, using(crate::proofs::Found::map_ascends))]
fn rows_of(alloc: Global, kept: BTreeMap<Path, Body>) -> Result<Vec<Kept>, Memory>
    ensures rows { IfOk result (λ rows. Spec.kept_list rows ≡ Spec.kept_in kept.entries) }
    ensures order { KeptAscend (Spec.kept_in kept.entries) }
{
    let _ordered = kept.len();
    let mut rows = Vec::new(alloc);
    for (path, body) in kept {
        let Body { tree, last, new } = body;
        rows.push(Kept {
            path,
            tree,
            last,
            new,
        })?;
    }
    Ok(rows)
}

// The refusal of two rows that overlap.
fn overlapping(first: &Path, second: &Path) -> ScanRefusal
    ensures { Spec.Gives Spec.kept_list (Err result) (Spec.refused_pair [] (Some (first.now, second.now))) }
{
    let Ok(first) = first.copy() else {
        return ScanRefusal::NoMemory;
    };
    match second.copy() {
        Ok(second) => ScanRefusal::Overlap { first, second },
        Err(Memory) => ScanRefusal::NoMemory,
    }
}

// The first neighbours that overlap, from a row on.
fn overlap_behind<'a>(first: &'a Kept, rest: &'a [Kept]) -> Option<(&'a Path, &'a Path)>
    ensures { option_map (λ pair. (pair.0.now, pair.1.now)) result ≡ Spec.overlap_behind (Spec.kept_view first.entry.now) (map Spec.kept_view rest.entry.now) }
{
    let mut row = first;
    for next in rest {
        if row.path.overlaps(&next.path) {
            return Some((&row.path, &next.path));
        }
        row = next;
    }
    None
}

// The first neighbours that overlap.
fn first_overlap(rows: &[Kept]) -> Option<(&Path, &Path)>
    ensures { option_map (λ pair. (pair.0.now, pair.1.now)) result ≡ Spec.first_overlap (map Spec.kept_view rows.entry.now) }
{
    match rows {
        [] => None,
        [row, rest @ ..] => overlap_behind(row, rest),
    }
}

// Rows of which no two overlap.
#[tactic(auto, using(crate::proofs::Found::apart_kept))]
fn apart(rows: Vec<Kept>) -> Result<Vec<Kept>, ScanRefusal>
    requires { KeptAscend (Spec.kept_list rows) }
    ensures same { IfOk result (λ out. out ≡ rows) }
    ensures apart { IfOk result (λ rows. are_kept_apart (Spec.kept_list rows) ≡ true) }
    ensures rows { Spec.Gives Spec.kept_list result (Spec.apart_rows (Spec.kept_list rows)) }
{
    match first_overlap(rows.as_slice()) {
        None => Ok(rows),
        Some((first, second)) => Err(overlapping(first, second)),
    }
}

// The rows of the state store, if there aren't more than are allowed.
fn allowed(most: u64, raws: &[RawRow]) -> Result<(), ScanRefusal>
    ensures { Spec.Gives (λ _. raws.now) result (Spec.allowed most raws.now) }
{
    let count = raws.len() as u64;
    if most < count {
        return Err(ScanRefusal::Rows(count));
    }
    Ok(())
}

/// All kept rows in path order, or the first refusal.
#[tactic(auto, using(crate::proofs::Telling::no_keeper, crate::proofs::Telling::no_disk), unfolding(crate::specs::Rows::kept_rows))]
pub(crate) fn read_rows(
    alloc: Global,
    most: u64,
    identity: u64,
    raws: &[RawRow],
) -> Result<Vec<Kept>, ScanRefusal>
    requires { ascend raws.now ≡ true }
    ensures store { IfOk result (λ rows. AreOf identity (Spec.kept_list rows) raws.now) }
    ensures rows { Spec.Gives Spec.kept_list result (Spec.kept_rows most identity raws.now) }
    ensures kept { IfOk result (λ rows. AreKept (Spec.kept_list rows)) }
    ensures few { IfOk result (λ rows. length rows.items ≤ most) }
    ensures no_keeper { keeper_failed result ≡ false }
    ensures no_disk { disk_failed result ≡ false }
{
    allowed(most, raws)?;
    let kept = read_each(alloc, identity, raws)?;
    let rows = rows_of(alloc, kept)?;
    apart(rows)
}
