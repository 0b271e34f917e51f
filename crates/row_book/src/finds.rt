// Stocks that are found in the trie.
ghost use Rattle.std.specs.Prelude.{◌≡◌, ◌+◌, ◌≤◌, find, is_some, length, map, Some};
ghost use Rattle.std.specs.Option.{option_copied, option_flatten, option_map};
ghost use Rattle.path_trie.specs.Entries.{both, cover_of, is_high, value_at};
ghost use Rattle.path_trie.specs.Roots.{kept_if};
ghost use Rattle.row_book.specs.Stocks.{covers_stock, is_past, stock_at};
ghost use Rattle.row_book.specs.Whole.{first_later, is_later_under, place_of, stock_found, stocks_of};

use crate::stock::{Stock, covers};
use mat_path::Path;
use path_trie::{Steps, Trie};
use std::sync::ledger::Ledger;

// The stock at a path.
pub(crate) fn stock_at<'a>(trie: &'a Trie<Option<Stock>>, path: &Path) -> Option<&'a Stock>
    ensures { option_copied result ≡ option_flatten (value_at path.now trie.now) }
{
    match trie.get(path) {
        Some(place) => place.as_ref(),
        None => None,
    }
}

// Whether a stock is at a path.
pub(crate) fn has_stock(trie: &Trie<Option<Stock>>, path: &Path) -> bool
    requires { trie.now ≡ map place_of (stocks_of trie.now) }
    ensures { result ≡ is_some (find (stock_at path.now) (stocks_of trie.now)) }
{
    stock_at(trie, path).is_some()
}

// The stock whose row is at the shortest prefix of a path. Each node that is visited counts.
pub(crate) fn stock_leading<'a, L: Ledger>(
    trie: &'a Trie<Option<Stock>>,
    path: &Path,
    steps: &mut Steps<L>,
) -> Option<&'a Stock>
    ensures stock { option_copied result ≡ stock_found (cover_of path.now trie.now) }
    ensures most { steps.new ≤ steps.old + length path.now + 1 }
    ensures least { steps.old + 1 ≤ steps.new }
{
    match trie.cover(path, steps) {
        Some((_, place)) => place.as_ref(),
        None => None,
    }
}

// A stock, if its row covers a path.
pub(crate) fn if_covering<'a>(found: Option<&'a Stock>, path: &Path) -> Option<&'a Stock>
    ensures { option_copied result ≡ kept_if (covers_stock path.now) (option_copied found.entry) }
{
    match found {
        Some(stock) => {
            if covers(&stock.row, path) {
                return Some(stock);
            }
            None
        }
        None => None,
    }
}

// Whether a stock comes behind a path, or none is given.
fn is_past(stock: &Stock, last: Option<&Path>) -> bool
    ensures { result ≡ is_past (option_map (λ path. path.now) last.entry) stock.now }
{
    match last {
        Some(last) => last < &stock.row.path,
        None => true,
    }
}

// A stock, if it comes behind a path, or none is given.
pub(crate) fn if_past<'a>(found: &'a Stock, last: Option<&Path>) -> Option<&'a Stock>
    ensures { option_copied result ≡ kept_if (is_past (option_map (λ path. path.now) last.entry)) (Some found.entry.now) }
{
    if is_past(found, last) {
        return Some(found);
    }
    None
}

// The stock of a place that was found.
fn stock_within<'a>(found: Option<(&'a Path, &'a Option<Stock>)>) -> Option<&'a Stock>
    ensures { option_copied result ≡ stock_found (option_map (λ seen. (seen.0.now, seen.1.now)) found.entry) }
{
    match found {
        Some((_, place)) => place.as_ref(),
        None => None,
    }
}

// The stock whose row is at the shortest prefix of a path, where nobody counts.
pub(crate) fn stock_above<'a>(trie: &'a Trie<Option<Stock>>, path: &Path) -> Option<&'a Stock>
    ensures { option_copied result ≡ stock_found (option_map both (find (is_high path.now 0) trie.now)) }
{
    stock_within(trie.above_from(path, 0))
}

// The first stock at or below a path, behind another path, if one is given.
pub(crate) fn stock_under<'a>(
    trie: &'a Trie<Option<Stock>>,
    path: &Path,
    last: Option<&Path>,
) -> Option<&'a Stock>
    ensures { option_copied result ≡ stock_found (option_map both (find (is_later_under path.now (option_map (λ path. path.now) last.entry)) trie.now)) }
{
    match last {
        Some(last) => stock_within(trie.next_under(path, last)),
        None => stock_within(trie.first_under(path)),
    }
}

// The first stock of all, behind a path, if one is given.
pub(crate) fn stock_behind<'a>(
    trie: &'a Trie<Option<Stock>>,
    last: Option<&Path>,
) -> Option<&'a Stock>
    ensures { option_copied result ≡ stock_found (option_map both (first_later (option_map (λ path. path.now) last.entry) trie.now)) }
{
    match last {
        Some(last) => stock_within(trie.first_behind(last)),
        None => stock_within(trie.at(0)),
    }
}
