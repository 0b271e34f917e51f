// Rows that are removed from the books.
ghost use Rattle.std.specs.Prelude.{◌≡◌, ◌≤◌, ◌<◌, ◌+◌, ◌++◌, [], count_by, filter, length, map, reverse, IfOk};
ghost use Rattle.std.specs.Vec.{vec_capacity};
ghost use Rattle.row_book.specs.Stocks.{overlaps_stock, path_of};
ghost use Rattle.row_book.specs.Whole.{listed, taken_stocks, without_stocks};
ghost use Rattle.job_book.specs.Jobs.{jobs_of};
ghost use Rattle.mat_core.specs.Falling.{MayAllRemain, is_unkept};
ghost use Rattle.mat_core.specs.Removing.{AreRemoved, marked_by, marked_from, taken_at};

use crate::falling::{add_remains, is_unkept, path_of};
use crate::parts::Parts;
use job_book::JobBook;
use kept_book::KeptBook;
use mat_path::{Memory, Path};
use row_book::{RowBook, Stock};
use std::alloc::Global;

// Turns a list round.
pub(crate) fn turn<X: Drop>(items: &mut Vec<X>)
    ensures list { items.new.items ≡ reverse items.old.items }
    ensures capacity { vec_capacity items.new ≡ vec_capacity items.old }
{
    items.reverse();
}

/// The paths of the rows that overlap a path, in order of path.
pub(crate) fn list_overlapping(
    alloc: Global,
    rows: &RowBook,
    path: &Path,
) -> Result<Vec<Path>, Memory>
    ensures { IfOk result (λ paths. paths.items ≡ map path_of (filter (overlaps_stock path.now) rows.now)) }
{
    rows.is_in_order();
    let mut paths: Vec<Path> = Vec::new(alloc);
    let mut last: Option<&Path> = None;
    'rows: while let Some(stock) = rows.overlapping_from(path, last) {
        paths.push(stock.row.path.copy()?)?;
        last = Some(path_of(stock));
    }
    Ok(paths)
}

// Puts a stock behind others, for which there is room, if there is one.
fn keep(taken: &mut Vec<Stock>, stock: Option<Stock>)
    requires { length taken.old.items < vec_capacity taken.old }
    ensures list { taken.new.items ≡ taken.old.items ++ listed stock }
    ensures capacity { vec_capacity taken.new ≡ vec_capacity taken.old }
{
    if let Some(stock) = stock {
        taken.push_reserved(stock);
    }
}

// Takes the rows at some paths out, and puts them behind others, for which there is room.
fn take_each(rows: &mut RowBook, paths: &[Path], taken: &mut Vec<Stock>)
    requires room { length taken.old.items + length paths.now ≤ vec_capacity taken.old }
    ensures rows { rows.new ≡ without_stocks paths.now rows.old }
    ensures taken { taken.new.items ≡ taken.old.items ++ taken_stocks paths.now rows.old }
{
    for path in paths {
        let stock = rows.remove(path);
        keep(taken, stock);
    }
}

// Takes the rows at some paths out, which are listed the last first, into a list that has room for them: it is in order of path.
fn take_rows(rows: &mut RowBook, paths: &[Path], room: Vec<Stock>) -> Vec<Stock>
    requires none { room.items ≡ [] }
    requires fits { length paths.now ≤ vec_capacity room }
    ensures rows { rows.new ≡ without_stocks paths.now rows.old }
    ensures taken { result.items ≡ taken_at paths.now rows.old }
{
    let mut taken = room;
    take_each(rows, paths, &mut taken);
    turn(&mut taken);
    taken
}

// Whether the state store has no row at the path of a stock's row.
fn is_stock_unkept(kept: &KeptBook, stock: &Stock) -> bool
    ensures { result ≡ is_unkept kept.now.marks stock.now }
{
    is_unkept(kept, &stock.row.path)
}

// At how many paths of some rows the state store has none.
fn count_unkept(kept: &KeptBook, stocks: &[Stock]) -> u64
    ensures { result ≡ count_by (is_unkept kept.now.marks) stocks.now }
{
    stocks
        .iter()
        .filter(|stock| is_stock_unkept(kept, stock))
        .count() as u64
}

// Marks the parts that jobs read of some rows, which a clean removed.
fn mark_from(jobs: &mut JobBook, stocks: &[Stock])
    ensures list { jobs.new ≡ marked_from stocks.now jobs.old }
    ensures jobs { jobs_of jobs.new ≡ jobs_of jobs.old }
{
    for stock in stocks {
        jobs.mark_cleaned(&stock.row.path, stock.row.stamp);
    }
}

// The same, where it was a clean that removed them.
fn mark_by(jobs: &mut JobBook, stocks: &[Stock], by_clean: bool)
    ensures list { jobs.new ≡ marked_by by_clean stocks.now jobs.old }
    ensures jobs { jobs_of jobs.new ≡ jobs_of jobs.old }
{
    if by_clean {
        mark_from(jobs, stocks);
    }
}

impl<D, K> Parts<D, K> {
    /// Removes the rows at some paths, which are listed the last first, into a list that has room for them, by a clean or another request. What remains
    /// of them becomes debris, which is condemned where a clean removed them. Takes no memory.
    pub(crate) fn remove_rows(&mut self, paths: &[Path], room: Vec<Stock>, by_clean: bool)
        requires none { room.items ≡ [] }
        requires fits { length paths.now ≤ vec_capacity room }
        requires debris { length paths.now ≤ self.old.debris.spare }
        requires apart { MayAllRemain by_clean (jobs_of self.old.jobs) (taken_at paths.now self.old.rows) self.old.debris.list }
        requires counted { count_by (is_unkept self.old.kept.marks) (taken_at paths.now self.old.rows) ≤ self.old.paths }
        ensures { AreRemoved by_clean paths.now self.old self.new }
    {
        let taken = take_rows(&mut self.rows, paths, room);
        self.paths -= count_unkept(&self.kept, taken.as_slice());
        mark_by(&mut self.jobs, taken.as_slice(), by_clean);
        add_remains(&mut self.debris, &self.jobs, taken, by_clean);
    }
}
