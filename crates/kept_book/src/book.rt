ghost use Rattle.std.specs.Prelude.{◌≡◌, [], true, is_ok, is_some, filter, find, if◌then◌else◌, length, map, IfOk};
ghost use Rattle.std.specs.Option.{option_map};
ghost use Rattle.kept_book.specs.Marks.{is_mark_at, is_mark_elsewhere, is_mark_unlisted, is_other, is_reserved, mark_at, overlaps_mark, path_of_mark, put_mark, put_path, use_of};

use crate::spot::{Spot, with_place, with_use, without_place, without_use};
use crate::spot_map::{SpotMap, keep_marked};
use mat_path::{Memory, Path};
use std::alloc::Global;
use std::marker::Model;

/// The marks of the rows that the state store has, and the places that are reserved for rows, both in order of path, each path once.
#[derive(Debug, Drop)]
pub struct KeptBook {
    spots: SpotMap,
}

impl Model for KeptBook {
    ghost use Rattle.kept_book.specs.Marks.{Marks};
    ghost use Rattle.kept_book.specs.Spots.{seen};

    ghost Value = { Marks };

    ghost view = { λ book. seen book.spots };
}

impl KeptBook {
    /// The book of no mark and no place. Takes no memory.
    pub fn new(alloc: Global) -> KeptBook
        ensures marks { result.marks ≡ [] }
        ensures reserved { result.reserved ≡ [] }
    {
        KeptBook {
            spots: SpotMap::new(alloc),
        }
    }

    /// How many marks there are. In time that doesn't grow with them, and without memory.
    pub fn len(&self) -> usize
        ensures { result ≡ length self.now.marks }
    {
        self.spots.mark_count()
    }

    /// The last use of the mark at exactly a path in microseconds, and whether its row is in the version that is written now. Takes no
    /// memory, as `remove`, `remove_all`, `settle` and `release`.
    pub fn get(&self, path: &Path) -> Option<(u64, bool)>
        ensures { result ≡ option_map use_of (find (is_mark_at path.now) self.now.marks) }
    {
        self.spots.is_in_order();
        self.spots.use_at(path)
    }

    /// The paths of the marks that overlap a path, in order of path.
    pub fn overlapping(&self, path: &Path) -> Result<Vec<Path>, Memory>
        ensures ok { IfOk result (λ paths. paths.items ≡ map path_of_mark (filter (overlaps_mark path.now) self.now.marks)) }
    {
        self.spots.is_in_order();
        let mut paths = self.spots.overlapping(path)?;
        keep_marked(&self.spots, &mut paths);
        Ok(paths)
    }

    /// Puts a mark at a path, in the place of the one there. For want of memory nothing changes.
    pub fn put(&mut self, path: &Path, last: u64, new: bool) -> Result<(), Memory>
        ensures marks { self.new.marks ≡ (if is_ok result then put_mark (mark_at path.now last new) self.old.marks else self.old.marks) }
        ensures reserved { self.new.reserved ≡ self.old.reserved }
    {
        self.spots.is_in_order();
        let spot = with_use(self.spots.get(path), last, new);
        self.spots.add(path, spot)
    }

    /// Takes the mark at exactly a path away, and says whether there was one.
    pub fn remove(&mut self, path: &Path) -> bool
        ensures marks { self.new.marks ≡ filter (is_mark_elsewhere path.now) self.old.marks }
        ensures reserved { self.new.reserved ≡ self.old.reserved }
        ensures was { result ≡ is_some (find (is_mark_at path.now) self.old.marks) }
    {
        self.spots.is_in_order();
        let was = self.spots.use_at(path).is_some();
        let spot = without_use(self.spots.get(path));
        self.spots.leave(path, spot);
        was
    }

    /// Takes the marks at some paths away.
    pub fn remove_all(&mut self, paths: &[Path])
        ensures marks { self.new.marks ≡ filter (is_mark_unlisted paths.now) self.old.marks }
        ensures reserved { self.new.reserved ≡ self.old.reserved }
    {
        for path in paths {
            self.remove(path);
        }
    }

    /// Reserves a place for a mark at a path, whether one stands there or not. For want of memory nothing changes.
    pub fn reserve(&mut self, path: &Path) -> Result<(), Memory>
        ensures marks { self.new.marks ≡ self.old.marks }
        ensures reserved { self.new.reserved ≡ (if is_ok result then put_path path.now self.old.reserved else self.old.reserved) }
    {
        self.spots.is_in_order();
        let spot = with_place(self.spots.get(path));
        self.spots.add(path, spot)
    }

    /// Puts a mark at a path for which a place is reserved, and uses that up.
    pub fn settle(&mut self, path: &Path, last: u64, new: bool)
        requires { is_reserved self.old.reserved path.now ≡ true }
        ensures marks { self.new.marks ≡ put_mark (mark_at path.now last new) self.old.marks }
        ensures reserved { self.new.reserved ≡ filter (is_other path.now) self.old.reserved }
    {
        self.spots.is_in_order();
        self.spots.set(path, Spot::Kept { last, new });
    }

    /// Gives the place up that is reserved at a path, if one is.
    pub fn release(&mut self, path: &Path)
        ensures marks { self.new.marks ≡ self.old.marks }
        ensures reserved { self.new.reserved ≡ filter (is_other path.now) self.old.reserved }
    {
        self.spots.is_in_order();
        let spot = without_place(self.spots.get(path));
        self.spots.leave(path, spot);
    }
}
