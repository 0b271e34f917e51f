ghost use Rattle.std.specs.Prelude.{◌≡◌, ◌≤◌, ◌+◌, ◌<◌, ◌^◌, [], filter, is_ok, is_some, length, map, true, if◌then◌else◌, IfOk};
ghost use Rattle.std.specs.Option.{option_copied};
ghost use Rattle.path_trie.specs.Entries.{ascends, overlaps, path_of, put, value_at, without};
ghost use Rattle.kept_book.specs.Spots.{is_kept_at, left_with, marks_of, use_in};

use crate::spot::{Spot, mark_count, use_in};
use mat_path::{Memory, Path};
use path_trie::Trie;
use std::alloc::Global;
use std::marker::Model;

/// A map from paths to spots, seen as the list of its entries in order of path, which counts its marks.
#[derive(Debug, Drop)]
pub struct SpotMap {
    trie: Trie<Spot>,
    marks: usize,
}

impl Model for SpotMap {
    ghost use Rattle.std.specs.Prelude.{◌≡◌, List, length};
    ghost use Rattle.path_trie.specs.declared.entry.Entry.{Entry};
    ghost use Rattle.kept_book.specs.declared.spot.Spot.{Spot as TheSpot};
    ghost use Rattle.kept_book.specs.Spots.{marks_of};

    ghost Value = { List (Entry TheSpot) };

    ghost view = { λ spots. spots.trie };

    ghost invariant = { λ spots. spots.marks ≡ length (marks_of spots.trie) };
}

impl SpotMap {
    /// The map with no spot.
    pub fn new(alloc: Global) -> SpotMap
        ensures { result ≡ [] }
    {
        SpotMap {
            trie: Trie::new(alloc),
            marks: 0,
        }
    }

    /// How many marks there are.
    pub fn mark_count(&self) -> usize
        ensures { result ≡ length (marks_of self.now) }
    {
        self.marks
    }

    /// What stands at a path.
    pub fn get(&self, path: &Path) -> Option<&Spot>
        ensures { option_copied result ≡ value_at path.now self.now }
    {
        self.trie.get(path)
    }

    /// The last use and the version of the mark at a path.
    pub fn use_at(&self, path: &Path) -> Option<(u64, bool)>
        ensures { result ≡ use_in (value_at path.now self.now) }
    {
        use_in(self.trie.get(path))
    }

    /// Whether there is a mark at a path.
    pub fn is_kept_at(&self, path: &Path) -> bool
        ensures { result ≡ is_kept_at self.now path.now }
    {
        self.use_at(path).is_some()
    }

    /// The paths of the spots that overlap a path, in order of path.
    pub fn overlapping(&self, path: &Path) -> Result<Vec<Path>, Memory>
        ensures ok { IfOk result (λ paths. paths.items ≡ map path_of (filter (overlaps path.now) self.now)) }
    {
        self.trie.overlapping(path)
    }

    /// Puts a spot at a path, in the place of the one there. For want of memory nothing changes.
    pub fn add(&mut self, path: &Path, spot: Spot) -> Result<(), Memory>
        ensures { self.new ≡ (if is_ok result then put path.now spot self.old else self.old) }
    {
        self.trie.is_in_order();
        let more = mark_count(Some(&spot));
        match self.trie.insert(path, spot) {
            Ok(old) => {
                let less = mark_count(old.as_ref());
                // no more marks than spots
                let _most = self.trie.len();
                recount(&mut self.marks, less, more);
                Ok(())
            }
            Err(_) => Err(Memory),
        }
    }

    /// Puts another spot where one stands. Takes no memory, as the calls below.
    pub fn set(&mut self, path: &Path, spot: Spot)
        requires { is_some (value_at path.now self.old) ≡ true }
        ensures { self.new ≡ put path.now spot self.old }
    {
        self.trie.is_in_order();
        let more = mark_count(Some(&spot));
        let old = self.trie.replace(path, spot).ok();
        let less = mark_count(old.as_ref());
        let _most = self.trie.len();
        recount(&mut self.marks, less, more);
    }

    /// Leaves another spot where one stands, or none.
    pub fn leave(&mut self, path: &Path, spot: Option<Spot>)
        requires { is_some spot ≡ true → is_some (value_at path.now self.old) ≡ true }
        ensures { self.new ≡ left_with path.now spot self.old }
    {
        match spot {
            Some(spot) => self.set(path, spot),
            None => self.take(path),
        }
    }

    // Takes the spot at a path away.
    fn take(&mut self, path: &Path)
        ensures { self.new ≡ without path.now self.old }
    {
        self.trie.is_in_order();
        let old = self.trie.remove(path);
        let less = mark_count(old.as_ref());
        recount(&mut self.marks, less, 0);
    }

    /// The law of the list: it stands in strict order of path. It does nothing.
    pub fn is_in_order(&self)
        ensures { ascends self.now ≡ true }
    {
        self.trie.is_in_order();
    }
}

// Counts the marks that went and came.
fn recount(marks: &mut usize, less: usize, more: usize)
    requires less { less ≤ marks.old }
    requires room { marks.old + more < 2 ^ 64 + less }
    ensures { marks.new + less ≡ marks.old + more }
{
    *marks = *marks - less + more;
}

// The paths at which there is a mark, of some.
pub(crate) fn keep_marked(spots: &SpotMap, paths: &mut Vec<Path>)
    ensures { paths.new.items ≡ filter (is_kept_at spots.now) paths.old.items }
{
    paths.retain(|path| spots.is_kept_at(path));
}
