// A stock that is changed at its place.
ghost use Rattle.std.specs.Prelude.{◌≡◌, ◌<◌, ◌^◌, true, map, Some, None};
ghost use Rattle.std.specs.Option.{option_flatten};
ghost use Rattle.path_trie.specs.Entries.{value_at};
ghost use Rattle.mat_model.specs.Rows.{are_apart};
ghost use Rattle.row_book.specs.Stocks.{held_bytes, marked_stock, rows_of, standing_stock, supplied_stock, used_stock};
ghost use Rattle.row_book.specs.Whole.{place_of, set_place, stocks_of};

use crate::stock::{Stock, held_of};
use mat_path::Path;
use path_trie::Trie;
use write_plan::Method;

// Puts another value in place of the one at a path, if one stands there, and gives that.
pub(crate) fn swap(
    trie: &mut Trie<Option<Stock>>,
    path: &Path,
    value: Option<Stock>,
) -> Option<Option<Stock>>
    ensures value { result ≡ value_at path.now trie.old }
    ensures trie { trie.new ≡ map (set_place path.now value) trie.old }
{
    trie.is_in_order();
    trie.replace(path, value).ok()
}

// Takes the stock at a path out, if one stands there: its place stays without it.
fn lift(trie: &mut Trie<Option<Stock>>, path: &Path) -> Option<Stock>
    ensures stock { result ≡ option_flatten (value_at path.now trie.old) }
    ensures trie { trie.new ≡ map (set_place path.now None) trie.old }
{
    match swap(trie, path, None) {
        Some(place) => place,
        None => None,
    }
}

// Puts a stock into the place at a path, which there is.
fn lay(trie: &mut Trie<Option<Stock>>, path: &Path, stock: Stock)
    ensures { trie.new ≡ map (set_place path.now (Some stock)) trie.old }
{
    let _place = swap(trie, path, Some(stock));
}

// Sets the last use of the row at a path.
pub(crate) fn use_at(trie: &mut Trie<Option<Stock>>, path: &Path, moment: u64)
    requires placed { trie.old ≡ map place_of (stocks_of trie.old) }
    requires apart { are_apart (rows_of (stocks_of trie.old)) ≡ true }
    ensures { trie.new ≡ map place_of (map (used_stock path.now moment) (stocks_of trie.old)) }
{
    if let Some(mut stock) = lift(trie, path) {
        stock.row.last = moment;
        lay(trie, path, stock);
    }
}

// The row at a path stands, and isn't dirty.
pub(crate) fn stand_at(trie: &mut Trie<Option<Stock>>, path: &Path)
    requires placed { trie.old ≡ map place_of (stocks_of trie.old) }
    requires apart { are_apart (rows_of (stocks_of trie.old)) ≡ true }
    ensures { trie.new ≡ map place_of (map (standing_stock path.now) (stocks_of trie.old)) }
{
    if let Some(mut stock) = lift(trie, path) {
        stock.row.stands = true;
        stock.dirty = false;
        lay(trie, path, stock);
    }
}

// Sets whether the row at a path is dirty.
pub(crate) fn mark_at(trie: &mut Trie<Option<Stock>>, path: &Path, dirty: bool)
    requires placed { trie.old ≡ map place_of (stocks_of trie.old) }
    requires apart { are_apart (rows_of (stocks_of trie.old)) ≡ true }
    ensures { trie.new ≡ map place_of (map (marked_stock path.now dirty) (stocks_of trie.old)) }
{
    if let Some(mut stock) = lift(trie, path) {
        stock.dirty = dirty;
        lay(trie, path, stock);
    }
}

// Gives the row at a path a method; how many bytes are held then.
pub(crate) fn supply_at(
    trie: &mut Trie<Option<Stock>>,
    held: u64,
    path: &Path,
    method: Method,
) -> u64
    requires placed { trie.old ≡ map place_of (stocks_of trie.old) }
    requires apart { are_apart (rows_of (stocks_of trie.old)) ≡ true }
    requires counted { held ≡ held_bytes (stocks_of trie.old) }
    requires few { held_bytes (map (supplied_stock path.now method) (stocks_of trie.old)) < 2 ^ 64 }
    ensures trie { trie.new ≡ map place_of (map (supplied_stock path.now method) (stocks_of trie.old)) }
    ensures held { result ≡ held_bytes (map (supplied_stock path.now method) (stocks_of trie.old)) }
{
    let Some(mut stock) = lift(trie, path) else {
        return held;
    };
    let rest = held - held_of(&stock);
    stock.method = method;
    let held = rest + held_of(&stock);
    lay(trie, path, stock);
    held
}
