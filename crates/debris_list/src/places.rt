// Places in a list of debris in path order, found by halves.
ghost use Rattle.std.specs.Prelude.{◌≡◌, ◌≤◌, true, false, not, length, take, drop};
ghost use Rattle.std.specs.List.{list_all, list_any, position, position_or_len};
ghost use Rattle.mat_model.specs.WorkState.{is_condemned, is_debris_above};
ghost use Rattle.debris_list.specs.Pieces.{are_apart, is_before, is_behind, is_up_to};

use crate::piece::Piece;
use mat_path::Path;

// Whether debris comes before a path.
fn is_before(piece: &Piece, path: &Path) -> bool
    ensures { result ≡ is_before path.now piece.now }
{
    *piece.path() < *path
}

// Whether debris comes before a path, or is at or below it.
fn is_up_to(piece: &Piece, path: &Path) -> bool
    ensures { result ≡ is_up_to path.now piece.now }
{
    is_before(piece, path) || path.is_prefix(piece.path())
}

// How many pieces come before a path.
pub(crate) fn count_before(pieces: &[Piece], path: &Path) -> usize
    requires { are_apart pieces.now ≡ true }
    ensures within { result ≤ length pieces.now }
    ensures front { list_all (is_before path.now) (take result pieces.now) ≡ true }
    ensures rest { list_any (is_before path.now) (drop result pieces.now) ≡ false }
{
    pieces.partition_point(|piece| is_before(piece, path))
}

// How many pieces come before a path, or are at or below it.
pub(crate) fn count_up_to(pieces: &[Piece], path: &Path) -> usize
    requires { are_apart pieces.now ≡ true }
    ensures within { result ≤ length pieces.now }
    ensures front { list_all (is_up_to path.now) (take result pieces.now) ≡ true }
    ensures rest { list_any (is_up_to path.now) (drop result pieces.now) ≡ false }
{
    pieces.partition_point(|piece| is_up_to(piece, path))
}
