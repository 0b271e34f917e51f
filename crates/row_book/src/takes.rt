// Stocks that come and go.
ghost use Rattle.std.specs.Prelude.{◌≡◌, ◌+◌, ◌≤◌, ◌<◌, ◌^◌, ◌++◌, [], true, false, is_ok, is_some, find, length, map, reverse, if◌then◌else◌, IfErr, IfOk, None, OnOk};
ghost use Rattle.std.specs.List.{filter};
ghost use Rattle.std.specs.Vec.{vec_capacity};
ghost use Rattle.path_trie.specs.Entries.{overlaps, path_of};
ghost use Rattle.mat_model.specs.Rows.{are_apart};
ghost use Rattle.row_book.specs.Stocks.{held_bytes, is_clear_stock, is_stock_elsewhere, overlaps_stock, put_stock, rows_of, stock_at};
ghost use Rattle.row_book.specs.Whole.{listed, place_of, stocks_of, taken_stocks, without_stocks};

use crate::changes::swap;
use crate::finds::has_stock;
use crate::stock::{Stock, held_of};
use mat_path::{Memory, Path};
use path_trie::Trie;

// How many bytes are held for some stocks.
pub(crate) fn held_all(stocks: &[Stock]) -> u64
    requires { held_bytes stocks.now < 2 ^ 64 }
    ensures { result ≡ held_bytes stocks.now }
{
    let mut held = 0;
    for stock in stocks {
        held += held_of(stock);
    }
    held
}

// Turns a list round.
fn turn<X: Drop>(items: &mut Vec<X>)
    ensures list { items.new.items ≡ reverse items.old.items }
    ensures capacity { vec_capacity items.new ≡ vec_capacity items.old }
{
    items.reverse();
}

// The paths of the stocks that overlap a path, the last first, so that what is taken by them in turn stands at the end of its folder; and
// a list of no stock with room for as many.
pub(crate) fn list_overlapping(
    trie: &Trie<Option<Stock>>,
    path: &Path,
) -> Result<(Vec<Path>, Vec<Stock>), Memory>
    ensures paths { IfOk result (λ got. got.0.items ≡ reverse (map path_of (filter (overlaps path.now) trie.now))) }
    ensures none { IfOk result (λ got. got.1.items ≡ []) }
    ensures room { IfOk result (λ got. length got.0.items ≤ vec_capacity got.1) }
{
    let mut paths = trie.overlapping(path)?;
    let mut removed = Vec::new(*paths.allocator());
    removed.reserve(paths.len())?;
    turn(&mut paths);
    Ok((paths, removed))
}

// Takes the stock at a path away.
pub(crate) fn take_one(trie: &mut Trie<Option<Stock>>, path: &Path) -> Option<Stock>
    requires placed { trie.old ≡ map place_of (stocks_of trie.old) }
    ensures stock { result ≡ find (stock_at path.now) (stocks_of trie.old) }
    ensures trie { trie.new ≡ map place_of (filter (is_stock_elsewhere path.now) (stocks_of trie.old)) }
{
    match trie.remove(path) {
        Some(place) => place,
        None => None,
    }
}

// Puts a stock behind others, for which there is room, if there is one.
fn keep(removed: &mut Vec<Stock>, stock: Option<Stock>)
    requires { length removed.old.items < vec_capacity removed.old }
    ensures list { removed.new.items ≡ removed.old.items ++ listed stock }
    ensures capacity { vec_capacity removed.new ≡ vec_capacity removed.old }
{
    if let Some(stock) = stock {
        removed.push_reserved(stock);
    }
}

// Takes the stocks at some paths away, and puts them behind others, for which there is room.
pub(crate) fn take_each(trie: &mut Trie<Option<Stock>>, paths: &[Path], removed: &mut Vec<Stock>)
    requires placed { trie.old ≡ map place_of (stocks_of trie.old) }
    requires room { length removed.old.items + length paths.now ≤ vec_capacity removed.old }
    ensures trie { trie.new ≡ map place_of (without_stocks paths.now (stocks_of trie.old)) }
    ensures removed { removed.new.items ≡ removed.old.items ++ taken_stocks paths.now (stocks_of trie.old) }
{
    for path in paths {
        let stock = take_one(trie, path);
        keep(removed, stock);
    }
}

// Takes the stocks away that overlap a path, which are those at some paths, and lists them.
pub(crate) fn take_overlapping(
    trie: &mut Trie<Option<Stock>>,
    path: &Path,
    paths: &[Path],
    removed: &mut Vec<Stock>,
)
    requires placed { trie.old ≡ map place_of (stocks_of trie.old) }
    requires paths { paths.now ≡ reverse (map path_of (filter (overlaps path.now) trie.old)) }
    requires none { removed.old.items ≡ [] }
    requires room { length paths.now ≤ vec_capacity removed.old }
    ensures trie { trie.new ≡ map place_of (filter (is_clear_stock path.now) (stocks_of trie.old)) }
    ensures removed { removed.new.items ≡ filter (overlaps_stock path.now) (stocks_of trie.old) }
{
    trie.is_in_order();
    take_each(trie, paths, removed);
    turn(removed);
}

// Puts a stock in place of the one at its path, which there is, and gives that.
fn exchange(trie: &mut Trie<Option<Stock>>, path: &Path, stock: Stock) -> Option<Stock>
    requires placed { trie.old ≡ map place_of (stocks_of trie.old) }
    requires apart { are_apart (rows_of (stocks_of trie.old)) ≡ true }
    requires at { path.now ≡ stock.row.path }
    requires there { is_some (find (stock_at path.now) (stocks_of trie.old)) ≡ true }
    ensures trie { trie.new ≡ map place_of (put_stock stock (filter (is_clear_stock path.now) (stocks_of trie.old))) }
    ensures stock { result ≡ find (stock_at path.now) (stocks_of trie.old) }
{
    match swap(trie, path, Some(stock)) {
        Some(place) => place,
        None => None,
    }
}

// Puts a stock at its path, where none is. For want of memory it comes back, and nothing changes.
fn insert(trie: &mut Trie<Option<Stock>>, path: &Path, stock: Stock) -> Result<(), Stock>
    requires placed { trie.old ≡ map place_of (stocks_of trie.old) }
    requires at { path.now ≡ stock.row.path }
    requires absent { is_some (find (stock_at path.now) (stocks_of trie.old)) ≡ false }
    ensures trie { trie.new ≡ (if is_ok result then map place_of (put_stock stock (stocks_of trie.old)) else trie.old) }
    ensures back { IfErr result (λ back. back ≡ stock) }
{
    trie.is_in_order();
    match trie.insert(path, Some(stock)) {
        Ok(_) => Ok(()),
        Err(Some(stock)) => Err(stock),
        Err(None) => unreachable!(),
    }
}

// Puts a stock at a path where none is, and takes those at some paths away.
fn insert_among(
    trie: &mut Trie<Option<Stock>>,
    path: &Path,
    paths: &[Path],
    stock: Stock,
    removed: &mut Vec<Stock>,
) -> Result<(), Stock>
    requires placed { trie.old ≡ map place_of (stocks_of trie.old) }
    requires apart { are_apart (rows_of (stocks_of trie.old)) ≡ true }
    requires at { path.now ≡ stock.row.path }
    requires absent { is_some (find (stock_at path.now) (stocks_of trie.old)) ≡ false }
    requires paths { paths.now ≡ reverse (map path_of (filter (overlaps path.now) trie.old)) }
    requires none { removed.old.items ≡ [] }
    requires room { length paths.now ≤ vec_capacity removed.old }
    ensures trie { trie.new ≡ (if is_ok result then map place_of (put_stock stock (filter (is_clear_stock path.now) (stocks_of trie.old))) else trie.old) }
    ensures removed { OnOk result (removed.new.items ≡ filter (overlaps_stock path.now) (stocks_of trie.old)) }
    ensures back { IfErr result (λ back. back ≡ stock) }
{
    trie.is_in_order();
    match insert(trie, path, stock) {
        Ok(()) => {
            trie.is_in_order();
            take_each(trie, paths, removed);
            turn(removed);
            Ok(())
        }
        Err(stock) => Err(stock),
    }
}

// Puts a stock at its path, and takes those away that overlap it.
pub(crate) fn place(
    trie: &mut Trie<Option<Stock>>,
    path: &Path,
    paths: &[Path],
    stock: Stock,
    removed: &mut Vec<Stock>,
) -> Result<(), Stock>
    requires placed { trie.old ≡ map place_of (stocks_of trie.old) }
    requires apart { are_apart (rows_of (stocks_of trie.old)) ≡ true }
    requires at { path.now ≡ stock.row.path }
    requires paths { paths.now ≡ reverse (map path_of (filter (overlaps path.now) trie.old)) }
    requires none { removed.old.items ≡ [] }
    requires room { length paths.now ≤ vec_capacity removed.old }
    ensures trie { trie.new ≡ (if is_ok result then map place_of (put_stock stock (filter (is_clear_stock path.now) (stocks_of trie.old))) else trie.old) }
    ensures removed { OnOk result (removed.new.items ≡ filter (overlaps_stock path.now) (stocks_of trie.old)) }
    ensures back { IfErr result (λ back. back ≡ stock) }
{
    if !has_stock(trie, path) {
        return insert_among(trie, path, paths, stock, removed);
    }
    let old = exchange(trie, path, stock);
    keep(removed, old);
    Ok(())
}
