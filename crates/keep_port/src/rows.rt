// The rows after a call, made anew, so that a call that wants memory leaves the old ones.
ghost use Rattle.std.specs.Prelude.{◌≡◌, ◌++◌, ◌∷◌, [], true, false, map, length, IfOk, OnOk, Some};
ghost use Rattle.std.specs.List.{filter};
ghost use Rattle.keep_port.specs.Rows.{Tells, all_failed, ascend, is_elsewhere, is_less, put, put_all, remove_all, touch_all, touched};

use crate::row::{All, RawRow, Touch};
use mat_path::{Items, Memory, Path};
use std::alloc::Global;

// The same bytes once more.
fn copy_bytes(alloc: Global, bytes: &[u8]) -> Result<Items<u8>, Memory>
    ensures { IfOk result (λ copy. copy ≡ bytes.now) }
{
    let copy = Vec::from_slice(alloc, bytes)?;
    Ok(Items::of(copy))
}

// The same row once more.
fn copy_row(alloc: Global, row: &RawRow) -> Result<RawRow, Memory>
    ensures { IfOk result (λ copy. copy ≡ row.now) }
{
    let path = copy_bytes(alloc, row.path.as_slice())?;
    let body = copy_bytes(alloc, row.body.as_slice())?;
    Ok(RawRow {
        path,
        body,
        last: row.last,
    })
}

// Puts a copy of a row at the end.
fn push_copy(alloc: Global, rows: &mut Vec<RawRow>, row: &RawRow) -> Result<(), Memory>
    ensures { OnOk result (rows.new.items ≡ rows.old.items ++ row.now ∷ []) }
{
    rows.push(copy_row(alloc, row)?)?;
    Ok(())
}

// The same rows once more.
fn copy_rows(alloc: Global, rows: &[RawRow]) -> Result<Vec<RawRow>, Memory>
    ensures { IfOk result (λ copies. copies.items ≡ rows.now) }
{
    let mut copies = Vec::new(alloc);
    for row in rows {
        push_copy(alloc, &mut copies, row)?;
    }
    Ok(copies)
}

// Whether the path of a row comes before a path.
fn is_less(path: &[u8], row: &RawRow) -> bool
    ensures { result ≡ is_less path.now row.now }
{
    row.path.as_slice().cmp(path).is_lt()
}

// How many rows come before a path.
fn count_less(rows: &[RawRow], path: &[u8]) -> usize
    ensures { result ≡ length (filter (is_less path.now) rows.now) }
{
    let mut count = 0;
    for row in rows {
        if is_less(path, row) {
            count += 1;
        }
    }
    count
}

// Puts a row among ordered rows, in the place of one at its path.
#[tactic(auto, using(crate::proofs::Ordered::place_fits, crate::proofs::Ordered::put_placed, crate::proofs::Ordered::ascend_put))]
fn put(rows: &mut Vec<RawRow>, row: RawRow) -> Result<(), Memory>
    requires { ascend rows.old.items ≡ true }
    ensures rows { OnOk result (rows.new.items ≡ put rows.old.items row) }
    ensures ascends { OnOk result (ascend rows.new.items ≡ true) }
{
    let place = count_less(rows.as_slice(), row.path.as_slice());
    drop_at(rows, row.path.as_slice());
    rows.insert(place, row)?;
    Ok(())
}

// The rows with each of some more.
fn put_all(alloc: Global, old: &[RawRow], rows: &[RawRow]) -> Result<Vec<RawRow>, Memory>
    requires { ascend old.now ≡ true }
    ensures { IfOk result (λ new. new.items ≡ put_all old.now rows.now) }
{
    let mut new = copy_rows(alloc, old)?;
    for row in rows {
        put(&mut new, copy_row(alloc, row)?)?;
    }
    Ok(new)
}

// Gives a row another last use, if it stands at a path.
fn touch_row(row: &mut RawRow, path: &[u8], last: u64)
    ensures { row.new ≡ touched path.now last row.old }
{
    if row.path.as_slice() == path {
        row.last = last;
    }
}

// Gives the rows at a path another last use.
fn touch_each(rows: &mut [RawRow], path: &[u8], last: u64)
    ensures { rows.new ≡ map (touched path.now last) rows.old }
{
    for row in rows.iter_mut() {
        touch_row(row, path, last);
    }
}

// The same of the rows of a list.
fn touch(rows: &mut Vec<RawRow>, path: &[u8], last: u64)
    ensures { rows.new.items ≡ map (touched path.now last) rows.old.items }
{
    touch_each(rows.as_mut_slice(), path, last);
}

// Gives the rows at some paths another last use.
fn touch_all(rows: &mut Vec<RawRow>, touches: &[Touch]) -> Result<(), Memory>
    ensures { OnOk result (rows.new.items ≡ touch_all rows.old.items touches.now) }
{
    for one in touches {
        let path = one.path.write()?;
        touch(rows, path.as_slice(), one.last);
    }
    Ok(())
}

// Whether a row stands at another path.
fn is_elsewhere(path: &[u8], row: &RawRow) -> bool
    ensures { result ≡ is_elsewhere path.now row.now }
{
    row.path.as_slice() != path
}

// The rows without those at a path.
fn drop_at(rows: &mut Vec<RawRow>, path: &[u8])
    ensures { rows.new.items ≡ filter (is_elsewhere path.now) rows.old.items }
{
    rows.retain(|row| is_elsewhere(path, row));
}

// The rows without those at some paths.
fn remove_all(rows: &mut Vec<RawRow>, paths: &[Path]) -> Result<(), Memory>
    ensures { OnOk result (rows.new.items ≡ remove_all rows.old.items paths.now) }
{
    for one in paths {
        let path = one.write()?;
        drop_at(rows, path.as_slice());
    }
    Ok(())
}

// The rows with some more, of which others get another last use.
#[tactic(auto, using(crate::proofs::Ordered::ascend_stored))]
pub(crate) fn stored(
    alloc: Global,
    old: &[RawRow],
    rows: &[RawRow],
    touches: &[Touch],
) -> Result<Vec<RawRow>, Memory>
    requires { ascend old.now ≡ true }
    ensures rows { IfOk result (λ new. new.items ≡ touch_all (put_all old.now rows.now) touches.now) }
    ensures ascends { IfOk result (λ new. ascend new.items ≡ true) }
{
    let mut new = put_all(alloc, old, rows)?;
    touch_all(&mut new, touches)?;
    Ok(new)
}

// The rows without those at some paths.
#[tactic(auto, using(crate::proofs::Ordered::ascend_removed))]
pub(crate) fn removed(alloc: Global, old: &[RawRow], paths: &[Path]) -> Result<Vec<RawRow>, Memory>
    requires { ascend old.now ≡ true }
    ensures rows { IfOk result (λ new. new.items ≡ remove_all old.now paths.now) }
    ensures ascends { IfOk result (λ new. ascend new.items ≡ true) }
{
    let mut new = copy_rows(alloc, old)?;
    remove_all(&mut new, paths)?;
    Ok(new)
}

// All rows, for which memory may be wanting.
pub(crate) fn all_of(alloc: Global, rows: &[RawRow]) -> All
    requires { ascend rows.now ≡ true }
    ensures rows { Tells (Some rows.now) result }
    ensures failed { all_failed result ≡ false }
{
    match copy_rows(alloc, rows) {
        Ok(copies) => All::Rows(Items::of(copies)),
        Err(Memory) => All::NoMemory,
    }
}
