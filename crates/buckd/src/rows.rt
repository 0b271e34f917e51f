// The rows of the book as a plain list, in path order.
ghost use Rattle.std.specs.Prelude.{◌≡◌, ◌≤◌, OnOk, find, length, map, position};
ghost use Rattle.std.specs.Option.{option_copied};
ghost use Rattle.std.specs.List.{list_any, position_or_len};
ghost use Rattle.mat_model.specs.Rows.{comes_after, covers, cover, overlaps_row, put_row, standing_row, used, used_row};
ghost use Rattle.mat_model.specs.Work.{is_declared};

use mat_model::Row;
use mat_path::{Memory, Path};

/// Whether a row covers a path.
#[tactic(auto, using(crate::proofs::RowLemmas::has_node_is))]
pub fn covers(row: &Row, path: &Path) -> bool
    ensures { result ≡ covers path.now row.now }
{
    match row.path.below(path) {
        Some(rest) => row.tree.has(rest).is_some(),
        None => false,
    }
}

/// The row that covers a path.
pub fn cover<'a>(rows: &'a [Row], path: &Path) -> Option<&'a Row>
    ensures { option_copied result ≡ cover rows.entry.now path.now }
{
    rows.iter().find(|row| covers(row, path))
}

/// Whether any row overlaps a path.
pub fn any_overlaps(rows: &[Row], path: &Path) -> bool
    ensures { result ≡ list_any (overlaps_row path.now) rows.now }
{
    rows.iter().any(|row| row.path.overlaps(path))
}

/// Whether a row comes after a path.
fn comes_after(row: &Row, path: &Path) -> bool
    ensures { result ≡ comes_after path.now row.now }
{
    *path < row.path
}

/// The first row that comes after a path.
fn first_after(rows: &[Row], path: &Path) -> Option<usize>
    ensures { result ≡ position (comes_after path.now) rows.now }
{
    rows.iter().position(|row| comes_after(row, path))
}

/// The place in front of the first row that comes after a path, or the end.
#[tactic(auto, using(crate::proofs::RowLemmas::position_is))]
fn place_of(rows: &[Row], path: &Path) -> usize
    ensures value { result ≡ position_or_len (comes_after path.now) rows.now }
    ensures within { result ≤ length rows.now }
{
    first_after(rows, path).unwrap_or(rows.len())
}

/// Puts a row into its place.
#[tactic(auto, using(crate::proofs::RowLemmas::put_row_is))]
pub fn put_row(rows: &mut Vec<Row>, row: Row) -> Result<(), Memory>
    ensures { OnOk result (rows.new.items ≡ put_row row rows.old.items) }
{
    let at = place_of(rows.as_slice(), &row.path);
    rows.insert(at, row)?;
    Ok(())
}

/// Notes a use of the row at a path.
fn touch(rows: &mut [Row], path: &Path, moment: u64)
    ensures { rows.new ≡ used path.now moment rows.old }
{
    for row in rows.iter_mut() {
        touch_row(row, path, moment);
    }
}

/// Notes a use of the row at a path, in a list that may grow.
pub fn note_use(rows: &mut Vec<Row>, path: &Path, moment: u64)
    ensures { rows.new.items ≡ used path.now moment rows.old.items }
{
    touch(rows.as_mut_slice(), path, moment);
}

/// Notes a use of a row, if it is at the path.
fn touch_row(row: &mut Row, path: &Path, moment: u64)
    ensures { row.new ≡ used_row path.now moment row.old }
{
    if row.path == *path {
        row.last = moment;
    }
}

/// Whether a row was declared at a path under a stamp.
fn is_declared(row: &Row, path: &Path, stamp: u64) -> bool
    ensures { result ≡ is_declared path.now stamp row.now }
{
    row.path == *path && row.stamp == stamp
}

/// The row that was declared at a path under a stamp.
pub fn declared<'a>(rows: &'a [Row], path: &Path, stamp: u64) -> Option<&'a Row>
    ensures { option_copied result ≡ find (is_declared path.now stamp) rows.entry.now }
{
    rows.iter().find(|row| is_declared(row, path, stamp))
}

/// Makes the row at a path stand.
pub fn stand(rows: &mut [Row], path: &Path)
    ensures { rows.new ≡ map (standing_row path.now) rows.old }
{
    for row in rows.iter_mut() {
        stand_row(row, path);
    }
}

/// Makes a row stand, if it is at the path.
fn stand_row(row: &mut Row, path: &Path)
    ensures { row.new ≡ standing_row path.now row.old }
{
    if row.path == *path {
        row.stands = true;
    }
}
