// Rows that a new one takes the place of.
ghost use Rattle.std.specs.Prelude.{◌≡◌, ◌≤◌, ◌+◌, filter, length};
ghost use Rattle.row_book.specs.Stocks.{overlaps_stock};
ghost use Rattle.job_book.specs.Jobs.{jobs_of};
ghost use Rattle.mat_core.specs.Falling.{MayAllRemain, MayRemain, fall_of, is_remaining, is_unkept, is_unkept_at, one_if, with_remain, with_remains};

use debris_list::DebrisList;
use job_book::JobBook;
use kept_book::KeptBook;
use mat_path::Path;
use row_book::{RowBook, Stock, held_of};
use std::collections::VecDeque;

/// What the rows come to that overlap a path: how many there are, at how many of their paths the state store has no row, how many bytes are
/// held for them, and whether it has no row at the path itself.
#[derive(Clone, Copy, Debug)]
pub struct Fall {
    pub rows: u64,
    pub unkept: u64,
    pub held: u64,
    pub new: bool,
}

// Whether the state store has no row at a path.
pub(crate) fn is_unkept(kept: &KeptBook, path: &Path) -> bool
    ensures { result ≡ is_unkept_at kept.now.marks path.now }
{
    match kept.get(path) {
        None => true,
        Some(_) => false,
    }
}

// One for something that is so.
pub(crate) fn one_if(is: bool) -> u64
    ensures { result ≡ one_if is }
{
    if is {
        return 1;
    }
    0
}

// One where the state store has no row at the path of a stock's row, else none.
fn unkept_count(kept: &KeptBook, stock: &Stock) -> u64
    ensures { result ≡ one_if (is_unkept kept.now.marks stock.now) }
{
    one_if(is_unkept(kept, &stock.row.path))
}

// The path of a stock's row.
pub(crate) fn path_of(stock: &Stock) -> &Path
    ensures { result.now ≡ stock.now.row.path }
{
    &stock.row.path
}

// What the rows come to that overlap a path.
pub(crate) fn fall_at(rows: &RowBook, kept: &KeptBook, path: &Path) -> Fall
    ensures { result ≡ fall_of kept.now.marks path.now (filter (overlaps_stock path.now) rows.now) }
{
    rows.is_in_order();
    let _most = rows.len();
    let _held = rows.held_bytes();
    let mut count = 0;
    let mut unkept = 0;
    let mut held = 0;
    let mut last: Option<&Path> = None;
    'rows: while let Some(stock) = rows.overlapping_from(path, last) {
        count += 1;
        unkept += unkept_count(kept, stock);
        held += held_of(stock);
        last = Some(path_of(stock));
    }
    Fall {
        rows: count,
        unkept,
        held,
        new: is_unkept(kept, path),
    }
}

// Whether something remains on the disk of a row that is gone, and no loan overlaps it.
fn is_remaining(jobs: &JobBook, stock: &Stock) -> bool
    ensures { result ≡ is_remaining (jobs_of jobs.now) stock.now }
{
    (stock.row.stands || stock.dirty) && !jobs.is_lent(&stock.row.path)
}

// What remains of a row that is gone becomes debris, condemned or not.
fn add_remain(debris: &mut DebrisList, jobs: &JobBook, stock: Stock, condemned: bool)
    requires room { 1 ≤ debris.old.spare }
    requires apart { MayRemain (jobs_of jobs.now) stock debris.old.list }
    ensures list { debris.new.list ≡ with_remain condemned (jobs_of jobs.now) stock debris.old.list }
    ensures spare { debris.old.spare ≤ debris.new.spare + 1 }
{
    if is_remaining(jobs, &stock) {
        debris.add(stock.row.path, condemned);
    }
}

// What remains of rows that are gone becomes debris, condemned or not. Takes no memory.
pub(crate) fn add_remains(
    debris: &mut DebrisList,
    jobs: &JobBook,
    removed: Vec<Stock>,
    condemned: bool,
)
    requires room { length removed.items ≤ debris.old.spare }
    requires apart { MayAllRemain condemned (jobs_of jobs.now) removed.items debris.old.list }
    ensures list { debris.new.list ≡ with_remains condemned (jobs_of jobs.now) removed.items debris.old.list }
    ensures spare { debris.old.spare ≤ debris.new.spare + length removed.items }
{
    let mut rest = VecDeque::from_vec(removed);
    'rows: while let Some(stock) = rest.pop_front() {
        add_remain(debris, jobs, stock, condemned);
    }
}
