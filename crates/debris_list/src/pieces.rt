// What is done to a list of debris in order of path.
ghost use Rattle.std.specs.Prelude.{◌≡◌, ◌+◌, ◌<◌, ◌-◌, ◌≤◌, ◌++◌, true, false, drop, length, map, slice_get, take, IfNone, IfSome};
ghost use Rattle.std.specs.List.{filter, list_any, position, position_or_len};
ghost use Rattle.std.specs.Option.{is_some, option_copied};
ghost use Rattle.std.specs.Vec.{vec_capacity};
ghost use Rattle.mat_model.specs.WorkState.{is_condemned, is_debris_above, is_elsewhere, is_not_below, marked, path_of_debris, put_debris};
ghost use Rattle.debris_list.specs.Pieces.{IsFound, IsSameBefore, are_apart, is_at, one_if, overlaps_debris};

use crate::piece::Piece;
use crate::places::{count_before, count_up_to};
use mat_path::Path;

// The place of the piece at a path.
pub(crate) fn place_at(pieces: &[Piece], path: &Path) -> Option<usize>
    requires { are_apart pieces.now ≡ true }
    ensures found { IfSome result (IsFound path.now pieces.now) }
    ensures absent { IfNone result (list_any (is_at path.now) pieces.now ≡ false) }
{
    let place = count_before(pieces, path);
    if place < pieces.len() && pieces[place].path() == path {
        return Some(place);
    }
    None
}

// The piece at a path is taken out; its place, if there was one.
pub(crate) fn take_out(pieces: &mut Vec<Piece>, path: &Path) -> Option<usize>
    requires { are_apart pieces.old.items ≡ true }
    ensures pieces { pieces.new.items ≡ filter (is_elsewhere path.now) pieces.old.items }
    ensures was { is_some result ≡ list_any (is_at path.now) pieces.old.items }
    ensures place { IfSome result (IsSameBefore pieces.old.items pieces.new.items) }
    ensures same { IfNone result (pieces.new.items ≡ pieces.old.items) }
    ensures count { length pieces.new.items + one_if (is_some result) ≡ length pieces.old.items }
    ensures capacity { vec_capacity pieces.new ≡ vec_capacity pieces.old }
{
    let place = place_at(pieces.as_slice(), path)?;
    let _ = pieces.remove(place);
    Some(place)
}

// Marks the piece at a path; its place, if there is one.
pub(crate) fn mark(pieces: &mut Vec<Piece>, path: &Path, condemned: bool) -> Option<usize>
    requires { are_apart pieces.old.items ≡ true }
    ensures pieces { pieces.new.items ≡ map (marked condemned path.now) pieces.old.items }
    ensures place { IfSome result (IsSameBefore pieces.old.items pieces.new.items) }
    ensures same { IfNone result (pieces.new.items ≡ pieces.old.items) }
    ensures count { length pieces.new.items ≡ length pieces.old.items }
    ensures capacity { vec_capacity pieces.new ≡ vec_capacity pieces.old }
{
    let place = place_at(pieces.as_slice(), path)?;
    pieces[place].mark(condemned);
    Some(place)
}

// Puts a piece that overlaps none into its place, which is told; there is room.
#[tactic(auto, using(crate::proofs::Zones::put_is))]
pub(crate) fn put(pieces: &mut Vec<Piece>, piece: Piece) -> usize
    requires order { are_apart pieces.old.items ≡ true }
    requires apart { list_any (overlaps_debris (path_of_debris piece)) pieces.old.items ≡ false }
    requires room { length pieces.old.items < vec_capacity pieces.old }
    ensures pieces { pieces.new.items ≡ put_debris piece pieces.old.items }
    ensures place { IsSameBefore pieces.old.items pieces.new.items result }
    ensures count { length pieces.new.items ≡ length pieces.old.items + 1 }
    ensures capacity { vec_capacity pieces.new ≡ vec_capacity pieces.old }
{
    let place = count_before(pieces.as_slice(), piece.path());
    let _ = pieces.insert(place, piece);
    place
}

// Cuts the pieces from a place to another one out.
fn cut(pieces: &mut Vec<Piece>, start: usize, end: usize)
    requires order { start ≤ end }
    requires within { end ≤ length pieces.old.items }
    ensures pieces { pieces.new.items ≡ take start pieces.old.items ++ drop end pieces.old.items }
    ensures capacity { vec_capacity pieces.new ≡ vec_capacity pieces.old }
{
    drop(pieces.drain(start..end));
}

// Where the pieces at and below a path begin and end.
fn range_below(pieces: &[Piece], path: &Path) -> (usize, usize)
    requires { are_apart pieces.now ≡ true }
    ensures order { result.0 ≤ result.1 }
    ensures within { result.1 ≤ length pieces.now }
    ensures rest { take result.0 pieces.now ++ drop result.1 pieces.now ≡ filter (is_not_below path.now) pieces.now }
    ensures empty { result.0 ≡ result.1 → filter (is_not_below path.now) pieces.now ≡ pieces.now }
    ensures count { length (filter (is_not_below path.now) pieces.now) + (result.1 - result.0) ≡ length pieces.now }
{
    (count_before(pieces, path), count_up_to(pieces, path))
}

// The pieces at and below a path are cut out: the place of the first of them, and how many they were, if there was one.
pub(crate) fn cut_below(pieces: &mut Vec<Piece>, path: &Path) -> Option<(usize, usize)>
    requires { are_apart pieces.old.items ≡ true }
    ensures pieces { pieces.new.items ≡ filter (is_not_below path.now) pieces.old.items }
    ensures place { IfSome result (λ cut. IsSameBefore pieces.old.items pieces.new.items cut.0) }
    ensures count { IfSome result (λ cut. length pieces.new.items + cut.1 ≡ length pieces.old.items) }
    ensures same { IfNone result (pieces.new.items ≡ pieces.old.items) }
    ensures capacity { vec_capacity pieces.new ≡ vec_capacity pieces.old }
{
    let (start, end) = range_below(pieces.as_slice(), path);
    if start == end {
        return None;
    }
    cut(pieces, start, end);
    Some((start, end - start))
}

// Whether a piece is strictly above a path: none but the last one that comes before it may be.
pub(crate) fn is_below_one(pieces: &[Piece], path: &Path) -> bool
    requires { are_apart pieces.now ≡ true }
    ensures { result ≡ list_any (is_debris_above path.now) pieces.now }
{
    let count = count_before(pieces, path);
    if count == 0 {
        return false;
    }
    pieces[count - 1].path().is_prefix(path)
}

// The place of the first condemned piece.
fn find_condemned(pieces: &[Piece]) -> Option<usize>
    ensures { result ≡ position is_condemned pieces.now }
{
    pieces.iter().position(|piece| piece.is_condemned())
}

// How many pieces stand in front of the first condemned one, or in all.
#[tactic(auto, using(crate::proofs::Zones::position_is))]
fn count_free(pieces: &[Piece]) -> usize
    ensures value { result ≡ position_or_len is_condemned pieces.now }
    ensures within { result ≤ length pieces.now }
{
    find_condemned(pieces).unwrap_or(pieces.len())
}

// The same of a list in which none is condemned in front of a place.
pub(crate) fn first_condemned(pieces: &[Piece], from: usize) -> usize
    requires within { from ≤ length pieces.now }
    requires none { list_any is_condemned (take from pieces.now) ≡ false }
    ensures { result ≡ position_or_len is_condemned pieces.now }
{
    from + count_free(&pieces[from..])
}

// The piece at a place, from 0.
pub(crate) fn piece_at(pieces: &[Piece], place: usize) -> Option<&Piece>
    ensures { option_copied result ≡ slice_get pieces.now place }
{
    pieces.get(place)
}

// Whether a piece overlaps a path.
fn overlaps(piece: &Piece, path: &Path) -> bool
    ensures { result ≡ overlaps_debris path.now piece.now }
{
    piece.path().overlaps(path)
}

// Whether some piece overlaps a path.
pub(crate) fn any_overlaps(pieces: &[Piece], path: &Path) -> bool
    ensures { result ≡ list_any (overlaps_debris path.now) pieces.now }
{
    pieces.iter().any(|piece| overlaps(piece, path))
}
