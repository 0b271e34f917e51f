// The books with which a core begins.
ghost use Rattle.std.specs.Prelude.{◌≡◌, ◌++◌, ◌∷◌, [], true, map, IfErr, IfOk};
ghost use Rattle.std.specs.List.{list_all};
ghost use Rattle.mat_tree.specs.Trees.{ascends_by};
ghost use Rattle.mat_model.specs.History.{opened};
ghost use Rattle.mat_model.specs.Openings.{IsOpening, kept_at_opening, latest_use};
ghost use Rattle.mat_model.specs.Rows.{are_apart};
ghost use Rattle.row_book.specs.Stocks.{held_bytes};
ghost use Rattle.kept_book.specs.Marks.{mark_of, path_of_mark};
ghost use Rattle.mat_core.specs.Begun.{AreBooks};
ghost use Rattle.mat_core.specs.Books.{StandFor};
ghost use Rattle.mat_core.specs.Opened.{aged, aged_by, fetched, is_ahead, new_mark};

use crate::base::Base;
use crate::opening_debris::debris_in;
use crate::parts::Parts;
use debris_list::DebrisList;
use gate_core::Gate;
use holder_book::HolderBook;
use job_book::JobBook;
use kept_book::KeptBook;
use mat_model::{Opening, Row};
use mat_path::{Items, Memory, Path};
use row_book::{RowBook, Stock};
use std::alloc::Global;
use ticket_book::TicketBook;
use write_plan::Method;

// ---- rows

// A row whose bytes the store has.
fn fetched(row: Row) -> Stock
    ensures { result ≡ fetched row }
{
    Stock {
        row,
        method: Method::Fetch,
        dirty: false,
    }
}

// Puts a row behind all others.
fn add_row(rows: &mut RowBook, row: Row) -> Result<(), Memory>
    requires ahead { list_all (is_ahead row) rows.old ≡ true }
    requires free { held_bytes rows.old ≡ 0 }
    ensures { IfOk result (λ done. rows.new ≡ rows.old ++ fetched row ∷ []) }
{
    match rows.declare(fetched(row)) {
        Ok(_) => Ok(()),
        Err(_) => Err(Memory),
    }
}

/// The book of some rows that are apart, whose bytes the store has.
pub(crate) fn rows_in(alloc: Global, rows: Vec<Row>) -> Result<RowBook, Memory>
    requires { are_apart rows.items ≡ true }
    ensures { IfOk result (λ book. book ≡ map fetched rows.items) }
{
    let mut book = RowBook::new(alloc);
    for row in rows {
        add_row(&mut book, row)?;
    }
    Ok(book)
}

/// The greatest last use of some rows, or 0.
pub(crate) fn latest_use(rows: &[Row]) -> u64
    ensures { result ≡ latest_use rows.now }
{
    let mut latest = 0;
    for row in rows {
        latest = row.last.max(latest);
    }
    latest
}

// ---- kept rows

// The marks of some rows that are apart, in the version that is written now.
fn new_marks(alloc: Global, rows: &[Row]) -> Result<KeptBook, Memory>
    requires { are_apart rows.now ≡ true }
    ensures marks { IfOk result (λ book. book.marks ≡ map new_mark rows.now) }
    ensures reserved { IfOk result (λ book. book.reserved ≡ []) }
{
    let mut book = KeptBook::new(alloc);
    for row in rows {
        book.put(&row.path, row.last, true)?;
    }
    Ok(book)
}

// The mark at a path, if one is there, is of the first version.
fn age(book: &mut KeptBook, path: &Path) -> Result<(), Memory>
    requires { ascends_by path_of_mark book.old.marks ≡ true }
    ensures marks { IfOk result (λ done. book.new.marks ≡ map (aged path.now) book.old.marks) }
    ensures reserved { book.new.reserved ≡ book.old.reserved }
{
    match book.get(path) {
        Some((last, _)) => book.put(path, last, false),
        None => Ok(()),
    }
}

// The marks at some paths are of the first version.
fn age_all(book: &mut KeptBook, paths: &[Path]) -> Result<(), Memory>
    requires { ascends_by path_of_mark book.old.marks ≡ true }
    ensures marks { IfOk result (λ done. book.new.marks ≡ map (aged_by paths.now) book.old.marks) }
    ensures reserved { book.new.reserved ≡ book.old.reserved }
{
    for path in paths {
        age(book, path)?;
    }
    Ok(())
}

/// The marks of an opening's rows, each in the version in which it is stored.
pub(crate) fn marks_in(alloc: Global, opening: &Opening) -> Result<KeptBook, Memory>
    requires { are_apart opening.now.rows ≡ true }
    ensures marks { IfOk result (λ book. book.marks ≡ map mark_of (map (kept_at_opening opening.now) opening.now.rows)) }
    ensures reserved { IfOk result (λ book. book.reserved ≡ []) }
{
    let mut book = new_marks(alloc, opening.rows.as_slice())?;
    age_all(&mut book, opening.version1.as_slice())?;
    Ok(book)
}

// ---- all of them

// The books of a core that begins, as far as an opening tells of them.
#[derive(Drop)]
pub struct Books {
    first: u64,
    moment: u64,
    gate: Gate,
    rows: RowBook,
    debris: DebrisList,
    kept: KeptBook,
    lost: Vec<Path>,
}

// Some paths once more.
fn copied(alloc: Global, paths: &[Path]) -> Result<Vec<Path>, Memory>
    ensures { IfOk result (λ copies. copies.items ≡ paths.now) }
{
    let mut copies = Vec::new(alloc);
    for path in paths {
        copies.push(path.copy()?)?;
    }
    Ok(copies)
}

// The books of a core that begins with an opening.
fn books_of(alloc: Global, opening: Opening) -> Result<Books, Memory>
    requires { IsOpening opening }
    ensures { IfOk result (λ books. AreBooks opening books) }
{
    let gate = Gate::new(alloc)?;
    let kept = marks_in(alloc, &opening)?;
    let gone = copied(alloc, opening.lost.as_slice())?;
    let Opening {
        rows,
        lost,
        strays,
        ..
    } = opening;
    let moment = latest_use(rows.as_slice());
    let rows = rows.into_vec();
    let first = rows.len() as u64;
    let rows = rows_in(alloc, rows)?;
    let debris = debris_in(alloc, strays.into_vec(), lost.into_vec())?;
    Ok(Books {
        first,
        moment,
        gate,
        rows,
        debris,
        kept,
        lost: gone,
    })
}

impl<D, K> Parts<D, K> {
    /// The parts of a core that begins with an opening, over a disk and a state store. For want of memory both come back.
    pub fn opened(
        alloc: Global,
        base: Base<D, K>,
        disk: D,
        keeper: K,
        opening: Opening,
    ) -> Result<Parts<D, K>, (D, K)>
        requires { IsOpening opening }
        ensures base { IfOk result (λ parts. parts.base ≡ base) }
        ensures disk { IfOk result (λ parts. parts.disk ≡ disk) }
        ensures keeper { IfOk result (λ parts. parts.keeper ≡ keeper) }
        ensures stands { IfOk result (λ parts. StandFor parts (opened opening)) }
        ensures jobs { IfOk result (λ parts. parts.jobs ≡ []) }
        ensures reserved { IfOk result (λ parts. parts.kept.reserved ≡ []) }
        ensures lost { IfOk result (λ parts. parts.lost ≡ opening.lost) }
        ensures back { IfErr result (λ back. back ≡ (disk, keeper)) }
    {
        let Ok(books) = books_of(alloc, opening) else {
            return Err((disk, keeper));
        };
        Ok(Parts {
            base,
            first: books.first,
            moment: books.moment,
            gate: books.gate,
            rows: books.rows,
            holds: HolderBook::new(alloc),
            tickets: TicketBook::new(alloc),
            debris: books.debris,
            jobs: JobBook::new(alloc),
            kept: books.kept,
            nodes: 0,
            paths: books.first,
            lost: Items::of(books.lost),
            history: Vec::new(alloc),
            disk,
            keeper,
        })
    }
}
