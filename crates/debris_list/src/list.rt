ghost use Rattle.std.specs.Prelude.{◌≡◌, ◌+◌, ◌<◌, ◌≤◌, [], true, false, find, length, map, slice_get, IsOk};
ghost use Rattle.std.specs.List.{filter, list_any};
ghost use Rattle.std.specs.Option.{option_map};
ghost use Rattle.mat_model.specs.WorkState.{is_condemned, is_debris_above, is_elsewhere, is_not_below, marked, path_of_debris, put_debris};
ghost use Rattle.debris_list.specs.Pieces.{are_apart, is_at, one_if, overlaps_debris};

use crate::piece::Piece;
use crate::pieces::{
    any_overlaps, cut_below, first_condemned, is_below_one, mark, piece_at, put, take_out,
};
use mat_path::{Memory, Path};
use std::alloc::Global;
use std::marker::Model;

/// The debris in order of path, of which no two pieces overlap, and beside it the spare room: for how many more pieces there is memory.
#[derive(Debug, Drop)]
pub struct DebrisList {
    pieces: Vec<Piece>,
    // The place of the first condemned piece, or the end.
    first: usize,
}

impl Model for DebrisList {
    ghost use Rattle.std.specs.Prelude.{◌-◌, length};
    ghost use Rattle.std.specs.Vec.{vec_capacity};
    ghost use Rattle.debris_list.specs.Pieces.{Pieces};
    ghost use Rattle.debris_list.specs.Lists.{IsList};

    ghost Value = { Pieces };

    ghost view = { λ list. record { list = list.pieces.items; spare = vec_capacity list.pieces - length list.pieces.items } };

    ghost invariant = { λ list. IsList list.pieces.items list.first };
}

impl DebrisList {
    /// The list of no debris, without spare room. Takes no memory.
    pub fn new(alloc: Global) -> DebrisList
        ensures { result.list ≡ [] }
    {
        DebrisList {
            pieces: Vec::new(alloc),
            first: 0,
        }
    }

    /// How many pieces there are. Takes no memory.
    pub fn len(&self) -> usize
        ensures { result ≡ length self.now.list }
    {
        self.pieces.len()
    }

    /// Gives room for so many more pieces at least. For want of memory there is no less room than before.
    pub fn reserve(&mut self, n: u64) -> Result<(), Memory>
        ensures list { self.new.list ≡ self.old.list }
        ensures room { IsOk result → n ≤ self.new.spare }
        ensures spare { self.old.spare ≤ self.new.spare }
    {
        self.pieces.reserve(n as usize)?;
        Ok(())
    }

    /// Adds debris at a path that overlaps none; there is spare room. Takes no memory.
    #[tactic(auto, using(crate::proofs::Kept::put_apart))]
    pub fn add(&mut self, path: Path, condemned: bool)
        requires room { 0 < self.old.spare }
        requires apart { list_any (overlaps_debris path) self.old.list ≡ false }
        ensures list { self.new.list ≡ put_debris (record { path = path; condemned = condemned }) self.old.list }
        ensures spare { self.new.spare + 1 ≡ self.old.spare }
    {
        let place = put(&mut self.pieces, Piece::new(path, condemned));
        self.first = first_condemned(self.pieces.as_slice(), self.first.min(place));
    }

    /// Whether debris overlaps a path, so that none may be added there. It reads the whole list. Takes no memory.
    pub fn overlaps(&self, path: &Path) -> bool
        ensures { result ≡ list_any (overlaps_debris path.now) self.now.list }
    {
        any_overlaps(self.pieces.as_slice(), path)
    }

    /// For how many more pieces there is room. Takes no memory.
    pub fn spare(&self) -> u64
        ensures { result ≡ self.now.spare }
    {
        (self.pieces.capacity() - self.pieces.len()) as u64
    }

    /// Removes the debris at a path; whether there was some. Takes no memory.
    #[tactic(auto, using(crate::proofs::Kept::kept_apart))]
    pub fn remove(&mut self, path: &Path) -> bool
        ensures was { result ≡ list_any (is_at path.now) self.old.list }
        ensures list { self.new.list ≡ filter (is_elsewhere path.now) self.old.list }
        ensures spare { self.new.spare ≡ self.old.spare + one_if result }
    {
        match take_out(&mut self.pieces, path) {
            Some(place) => {
                self.first = first_condemned(self.pieces.as_slice(), self.first.min(place));
                true
            }
            None => false,
        }
    }

    /// Removes all debris at and below a path, and tells how many pieces that was. Takes no memory.
    #[tactic(auto, using(crate::proofs::Kept::kept_apart))]
    pub fn absorb(&mut self, path: &Path) -> u64
        ensures list { self.new.list ≡ filter (is_not_below path.now) self.old.list }
        ensures count { length self.new.list + result ≡ length self.old.list }
        ensures spare { self.new.spare ≡ self.old.spare + result }
    {
        match cut_below(&mut self.pieces, path) {
            Some((place, count)) => {
                self.first = first_condemned(self.pieces.as_slice(), self.first.min(place));
                count as u64
            }
            None => 0,
        }
    }

    /// Whether there is debris strictly above a path. Takes no memory.
    pub fn above(&self, path: &Path) -> bool
        ensures { result ≡ list_any (is_debris_above path.now) self.now.list }
    {
        is_below_one(self.pieces.as_slice(), path)
    }

    /// Condemns the debris at a path, or takes its mark away; where there is none, nothing changes. Takes no memory.
    #[tactic(auto, using(crate::proofs::Kept::marked_apart))]
    pub fn condemn(&mut self, path: &Path, condemned: bool)
        ensures list { self.new.list ≡ map (marked condemned path.now) self.old.list }
        ensures spare { self.new.spare ≡ self.old.spare }
    {
        match mark(&mut self.pieces, path, condemned) {
            Some(place) => {
                self.first = first_condemned(self.pieces.as_slice(), self.first.min(place));
            }
            None => {}
        }
    }

    /// The debris at a place in order of path, from 0, and whether it is condemned. Takes no memory.
    pub fn at(&self, k: usize) -> Option<(&Path, bool)>
        ensures { option_map (λ seen. record { path = seen.0.now; condemned = seen.1 }) result ≡ slice_get self.now.list k }
    {
        match piece_at(self.pieces.as_slice(), k) {
            Some(piece) => Some((piece.path(), piece.is_condemned())),
            None => None,
        }
    }

    /// The path of the first condemned debris. Takes no memory.
    pub fn first_condemned(&self) -> Option<&Path>
        ensures { option_map (λ path. path.now) result ≡ option_map path_of_debris (find is_condemned self.now.list) }
    {
        match piece_at(self.pieces.as_slice(), self.first) {
            Some(piece) => Some(piece.path()),
            None => None,
        }
    }

    /// The law of the list: it is in strict order of path, and no two pieces overlap. It does nothing.
    pub fn is_in_order(&self)
        ensures { are_apart self.now.list ≡ true }
    {
        let _pieces = &self.pieces;
    }
}
