// The task that comes first.
ghost use Rattle.std.specs.Prelude.{◌≡◌, ◌+◌, ◌<◌, ◌^◌, true, find, length, IfErr, IfOk, Some};
ghost use Rattle.std.specs.List.{list_all};
ghost use Rattle.std.specs.Option.{is_some, option_and_then, option_copied, option_map};
ghost use Rattle.mat_model.specs.declared.entries.Task.TheVariants as task;
ghost use Rattle.mat_model.specs.History.{Point};
ghost use Rattle.mat_model.specs.WorkState.{first_task, path_of_debris};
ghost use Rattle.model_laws.specs.PointRules.{IsPoint};
ghost use Rattle.ticket_book.specs.Asked.{ticket_at};
ghost use Rattle.job_book.specs.Jobs.{jobs_of};
ghost use Rattle.mat_core.specs.Books.{StandFor};
ghost use Rattle.mat_core.specs.Choosing.{first_debris, first_free, first_in, free_at, free_row, has_next, if_free, is_in_the_way, is_source, is_source_lent, is_stock_kept_back, is_under_row, make_of_stock, may_wipe_in, source_in, stands_with};
ghost use Rattle.mat_core.specs.Replacing.{AreRuled};

use crate::parts::Parts;
use debris_list::DebrisList;
use job_book::JobBook;
use mat_model::Task;
use mat_path::{Memory, Path};
use row_book::{RowBook, Stock};
use ticket_book::TicketBook;
use write_plan::Method;

// Whether a row is at or above a path: no other one overlaps it then.
fn is_under_row(rows: &RowBook, path: &Path) -> bool
    ensures { result ≡ is_under_row rows.now path.now }
{
    match rows.overlapping_from(path, None) {
        Some(stock) => stock.row.path.is_prefix(path),
        None => false,
    }
}

// Whether a path is strictly above a row with an open ticket.
fn is_in_the_way(rows: &RowBook, tickets: &TicketBook, path: &Path) -> bool
    ensures { result ≡ is_in_the_way rows.now tickets.now.all path.now }
{
    tickets.lowest_below(path).is_some() && !is_under_row(rows, path)
}

// Whether a wipe of debris may begin.
fn may_wipe(
    jobs: &JobBook,
    rows: &RowBook,
    tickets: &TicketBook,
    path: &Path,
    condemned: bool,
) -> bool
    ensures { result ≡ may_wipe_in (jobs_of jobs.now) rows.now tickets.now.all (record { path = path.now; condemned = condemned }) }
{
    !jobs.is_lent(path) && (condemned || is_in_the_way(rows, tickets, path))
}

// The path of the debris whose wipe comes first.
fn first_debris<'a>(
    jobs: &JobBook,
    debris: &'a DebrisList,
    rows: &RowBook,
    tickets: &TicketBook,
) -> Option<&'a Path>
    ensures { option_map (λ path. path.now) result ≡ option_map path_of_debris (first_debris (jobs_of jobs.now) rows.now tickets.now.all debris.now.list) }
{
    let _most = debris.len();
    let mut place = 0;
    'debris: while let Some((path, condemned)) = debris.at(place) {
        if may_wipe(jobs, rows, tickets, path, condemned) {
            return Some(path);
        }
        place += 1;
    }
    None
}

// Whether a stock's row has a stamp and stands.
fn stands_with(stock: &Stock, stamp: u64) -> bool
    ensures { result ≡ stands_with stamp stock.now }
{
    stock.row.stamp == stamp && stock.row.stands
}

// The stock whose row is at exactly a path, has a stamp and stands.
fn source_at<'a>(rows: &'a RowBook, source: &Path, stamp: u64) -> Option<&'a Stock>
    ensures { option_copied result ≡ find (is_source source.now stamp) rows.now }
{
    rows.is_in_order();
    match rows.get(source) {
        None => None,
        Some(stock) => {
            if stands_with(stock, stamp) {
                return Some(stock);
            }
            None
        }
    }
}

/// The stock of the part that a make by a method would read. Takes no memory.
pub(crate) fn source_of<'a>(rows: &'a RowBook, method: &Method) -> Option<&'a Stock>
    ensures { option_copied result ≡ source_in rows.now method.now }
{
    match method {
        Method::Write(_) => None,
        Method::Fetch => None,
        Method::Copy { source, stamp, .. } => source_at(rows, source, *stamp),
    }
}

// Whether a loan overlaps the part that a make by a method would read.
fn is_source_lent(jobs: &JobBook, rows: &RowBook, method: &Method) -> bool
    ensures { result ≡ is_source_lent (jobs_of jobs.now) rows.now method.now }
{
    match source_of(rows, method) {
        Some(stock) => jobs.is_lent(&stock.row.path),
        None => false,
    }
}

// Whether something keeps the make of a stock's row from beginning.
fn is_kept_back(jobs: &JobBook, debris: &DebrisList, rows: &RowBook, stock: &Stock) -> bool
    ensures { result ≡ is_stock_kept_back (jobs_of jobs.now) debris.now.list rows.now stock.now }
{
    stock.row.stands
        || jobs.is_lent(&stock.row.path)
        || debris.above(&stock.row.path)
        || is_source_lent(jobs, rows, &stock.method)
}

// A stock, if the make of its row may begin.
fn if_free<'a>(
    jobs: &JobBook,
    debris: &DebrisList,
    rows: &RowBook,
    stock: &'a Stock,
) -> Option<&'a Stock>
    ensures { option_copied result ≡ if_free (jobs_of jobs.now) debris.now.list rows.now stock.entry.now }
{
    if is_kept_back(jobs, debris, rows, stock) {
        return None;
    }
    Some(stock)
}

// The stock that covers a path, if the make of its row may begin.
fn free_at<'a>(
    jobs: &JobBook,
    debris: &DebrisList,
    rows: &'a RowBook,
    asked: &Path,
) -> Option<&'a Stock>
    ensures { option_copied result ≡ free_at (jobs_of jobs.now) debris.now.list rows.now asked.now }
{
    match rows.cover_free(asked) {
        Some(stock) => if_free(jobs, debris, rows, stock),
        None => None,
    }
}

// The stock that covers what the ticket of a number asks for, if the make of its row may begin.
fn free_row<'a>(
    jobs: &JobBook,
    debris: &DebrisList,
    rows: &'a RowBook,
    tickets: &TicketBook,
    number: u64,
) -> Option<&'a Stock>
    ensures { option_copied result ≡ option_and_then (free_row (jobs_of jobs.now) debris.now.list rows.now) (ticket_at tickets.now.all number) }
{
    match tickets.get(number) {
        Some(ticket) => free_at(jobs, debris, rows, &ticket.asked),
        None => None,
    }
}

// The stock whose make comes first: open tickets are looked at from the lowest on, until one waits for a row that isn't kept back.
fn first_free<'a>(
    jobs: &JobBook,
    debris: &DebrisList,
    rows: &'a RowBook,
    tickets: &TicketBook,
) -> Option<&'a Stock>
    requires { list_all has_next tickets.now.all ≡ true }
    ensures { option_copied result ≡ first_free (jobs_of jobs.now) debris.now.list rows.now tickets.now.all }
{
    tickets.are_tickets();
    let mut from = 0;
    'tickets: while let Some(number) = tickets.next_open(from) {
        if let Some(stock) = free_row(jobs, debris, rows, tickets, number) {
            return Some(stock);
        }
        from = number + 1;
    }
    None
}

// The wipe of a path.
fn wipe_of(path: &Path) -> Result<Option<Task>, Memory>
    ensures { IfOk result (λ found. found ≡ Some (task.Wipe path.now)) }
{
    let path = path.copy()?;
    Ok(Some(Task::Wipe { path }))
}

// The make of a stock's row.
fn make_of(stock: &Stock) -> Result<Option<Task>, Memory>
    ensures { IfOk result (λ found. found ≡ Some (make_of_stock stock.now)) }
{
    let path = stock.row.path.copy()?;
    Ok(Some(Task::Make {
        path,
        stamp: stock.row.stamp,
    }))
}

impl<D, K> Parts<D, K> {
    // The task that comes first, by the lists of the books.
    fn choose(&self) -> Result<Option<Task>, Memory>
        requires { list_all has_next self.now.tickets.all ≡ true }
        ensures found { IfOk result (λ found. found ≡ first_in (jobs_of self.now.jobs) self.now.debris.list self.now.rows self.now.tickets.all) }
        ensures want { IfErr result (λ want. is_some (first_in (jobs_of self.now.jobs) self.now.debris.list self.now.rows self.now.tickets.all) ≡ true) }
    {
        if let Some(path) = first_debris(&self.jobs, &self.debris, &self.rows, &self.tickets) {
            return wipe_of(path);
        }
        match first_free(&self.jobs, &self.debris, &self.rows, &self.tickets) {
            Some(stock) => make_of(stock),
            None => Ok(None),
        }
    }

    /// The task that comes first, if one may begin. Memory is wanted only where one may.
    pub(crate) fn first_task(&self) -> Result<Option<Task>, Memory>
        requires bound { self.now.first + length self.now.history.items < 2 ^ 64 }
        requires rules { AreRuled (self.now.first + length self.now.history.items) self.now }
        ensures found { IfOk result (λ found. (point : Point) → StandFor self.now point → IsPoint point → found ≡ first_task point.work point.book) }
        ensures want { IfErr result (λ want. (point : Point) → StandFor self.now point → IsPoint point → is_some (first_task point.work point.book) ≡ true) }
    {
        self.choose()
    }
}
