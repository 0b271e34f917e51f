ghost use Rattle.std.specs.Prelude.{◌≡◌, ◌+◌, ◌≤◌, ◌<◌, ◌^◌, [], true, is_ok, find, length, map, if◌then◌else◌, IfErr, IfOk, Option, Some, None};
ghost use Rattle.std.specs.List.{filter, list_any};
ghost use Rattle.std.specs.Option.{option_copied, option_map};
ghost use Rattle.mat_model.specs.Rows.{are_apart, cover, is_at_path, is_clear_of, overlaps_row, put_row, standing_row, used};
ghost use Rattle.row_book.specs.Stocks.{covers_stock, held_bytes, is_clear_stock, is_elsewhere, is_next_overlap, is_past, is_stock_elsewhere, overlaps_stock, put_stock, marked_stock, row_of, rows_of, standing_stock, stock_at, supplied_stock, used_stock};

use crate::changes::{mark_at, stand_at, supply_at, use_at};
use crate::finds::{
    if_covering, if_past, stock_above, stock_at, stock_behind, stock_leading, stock_under,
};
use crate::stock::{Stock, held_of};
use crate::takes::{held_all, list_overlapping, place, take_one, take_overlapping};
use mat_path::{Memory, Path};
use path_trie::{Steps, Trie};
use std::alloc::Global;
use std::marker::{Brand, Model};
use std::sync::ledger::{Blank, Ledger};
use write_plan::Method;

/// The rows in order of path, of which no two overlap, each with what is kept beside it.
#[derive(Debug, Drop)]
pub struct RowBook {
    // At each row's path its stock; None stands there only while a stock is changed.
    trie: Trie<Option<Stock>>,
    // How many bytes are held for all rows.
    held: u64,
}

impl Model for RowBook {
    ghost use Rattle.std.specs.Prelude.{List};
    ghost use Rattle.row_book.specs.declared.stock.Stock.{Stock as TheStock};
    ghost use Rattle.row_book.specs.Whole.{stocks_of, IsWhole};

    ghost Value = { List TheStock };

    ghost view = { λ book. stocks_of book.trie };

    ghost invariant = { λ book. IsWhole book.trie book.held };
}

impl RowBook {
    /// The book of no row. Takes no memory.
    pub fn new(alloc: Global) -> RowBook
        ensures { result ≡ [] }
    {
        RowBook {
            trie: Trie::new(alloc),
            held: 0,
        }
    }

    /// How many rows there are.
    pub fn len(&self) -> usize
        ensures { result ≡ length self.now }
    {
        self.trie.len()
    }

    /// How many bytes are held for all rows: a number that is kept, and not counted afresh.
    pub fn held_bytes(&self) -> u64
        ensures { result ≡ held_bytes self.now }
    {
        self.held
    }

    /// The law of the list: its rows are in strict order of path, and no two overlap. It does nothing.
    pub fn is_in_order(&self)
        ensures { are_apart (rows_of self.now) ≡ true }
    {
        let _trie = &self.trie;
    }

    /// The stock at exactly a path. Takes no memory, as the calls below.
    pub fn get(&self, path: &Path) -> Option<&Stock>
        ensures stock { option_copied result ≡ find (stock_at path.now) self.now }
        ensures row { option_map row_of (option_copied result) ≡ find (is_at_path path.now) (rows_of self.now) }
    {
        stock_at(&self.trie, path)
    }

    /// The stock whose row covers a path.
    ///
    /// A step is one node visited: at most one more than the path has names.
    pub fn cover<L: Ledger>(&self, path: &Path, steps: &mut Steps<L>) -> Option<&Stock>
        ensures stock { option_copied result ≡ find (covers_stock path.now) self.now }
        ensures row { option_map row_of (option_copied result) ≡ cover (rows_of self.now) path.now }
        ensures most { steps.new ≤ steps.old + length path.now + 1 }
        ensures least { steps.old + 1 ≤ steps.new }
    {
        if_covering(stock_leading(&self.trie, path, steps), path)
    }

    // The same, its steps counted in a ledger of its own.
    fn cover_in<L: Ledger>(&self, path: &Path, blank: Blank) -> Option<&Stock>
        requires name { blank.name ≡ L.name }
        requires parts { blank.parts ≡ L.parts }
        requires some { 0 < L.parts }
        ensures stock { option_copied result ≡ find (covers_stock path.now) self.now }
        ensures row { option_map row_of (option_copied result) ≡ cover (rows_of self.now) path.now }
    {
        let mut steps: Steps<L> = Steps::new(blank);
        self.cover(path, &mut steps)
    }

    /// The stock whose row covers a path, where nobody reads the steps.
    pub fn cover_free(&self, path: &Path) -> Option<&Stock>
        ensures stock { option_copied result ≡ find (covers_stock path.now) self.now }
        ensures row { option_map row_of (option_copied result) ≡ cover (rows_of self.now) path.now }
    {
        self.cover_in::<Brand>(path, Blank::new(1))
    }

    /// Whether some row overlaps a path.
    pub fn overlaps(&self, path: &Path) -> bool
        ensures { result ≡ list_any (overlaps_row path.now) (rows_of self.now) }
    {
        self.trie.overlaps(path)
    }

    /// The first stock in order of path whose row overlaps a path, behind another path, if one is given: with the path of the row that
    /// was found last a caller walks on.
    pub fn overlapping_from(&self, path: &Path, last: Option<&Path>) -> Option<&Stock>
        ensures { option_copied result ≡ find (is_next_overlap path.now (option_map (λ path. path.now) last.entry)) self.now }
    {
        match stock_above(&self.trie, path) {
            Some(stock) => if_past(stock, last),
            None => stock_under(&self.trie, path, last),
        }
    }

    /// The first stock in order of path, behind a path, if one is given.
    pub fn first_behind(&self, last: Option<&Path>) -> Option<&Stock>
        ensures { option_copied result ≡ find (is_past (option_map (λ path. path.now) last.entry)) self.now }
    {
        stock_behind(&self.trie, last)
    }

    /// Sets the last use of the row at exactly a path; where there is none, nothing changes.
    pub fn touch(&mut self, path: &Path, moment: u64)
        ensures stocks { self.new ≡ map (used_stock path.now moment) self.old }
        ensures rows { rows_of self.new ≡ used path.now moment (rows_of self.old) }
    {
        use_at(&mut self.trie, path, moment);
    }

    /// The row at exactly a path stands from now on, and isn't dirty; where there is none, nothing changes.
    pub fn stand(&mut self, path: &Path)
        ensures stocks { self.new ≡ map (standing_stock path.now) self.old }
        ensures rows { rows_of self.new ≡ map (standing_row path.now) (rows_of self.old) }
    {
        stand_at(&mut self.trie, path);
    }

    /// Sets whether the last make of the row at exactly a path failed; where there is none, nothing changes.
    pub fn set_dirty(&mut self, path: &Path, dirty: bool)
        ensures stocks { self.new ≡ map (marked_stock path.now dirty) self.old }
        ensures rows { rows_of self.new ≡ rows_of self.old }
    {
        mark_at(&mut self.trie, path, dirty);
    }

    /// The bytes of the row at exactly a path come from elsewhere from now on; where there is no row, nothing changes. The bytes that
    /// are held then are fewer than 2^64.
    pub fn take_method(&mut self, path: &Path, method: Method)
        requires few { held_bytes (map (supplied_stock path.now method) self.old) < 2 ^ 64 }
        ensures stocks { self.new ≡ map (supplied_stock path.now method) self.old }
        ensures rows { rows_of self.new ≡ rows_of self.old }
    {
        self.held = supply_at(&mut self.trie, self.held, path, method);
    }

    /// Puts a row into its place, and takes each away that overlaps its path: these are given, in order of path. For want of memory the
    /// row comes back, and nothing changes. The bytes that are held then are fewer than 2^64.
    pub fn declare(&mut self, stock: Stock) -> Result<Vec<Stock>, Stock>
        requires few { held_bytes (put_stock stock (filter (is_clear_stock stock.row.path) self.old)) < 2 ^ 64 }
        ensures stocks { self.new ≡ (if is_ok result then put_stock stock (filter (is_clear_stock stock.row.path) self.old) else self.old) }
        ensures rows { rows_of self.new ≡ (if is_ok result then put_row stock.row (filter (is_clear_of stock.row.path) (rows_of self.old)) else rows_of self.old) }
        ensures removed { IfOk result (λ removed. removed.items ≡ filter (overlaps_stock stock.row.path) self.old) }
        ensures back { IfErr result (λ back. back ≡ stock) }
    {
        let Ok(path) = stock.row.path.copy() else {
            return Err(stock);
        };
        let Ok((paths, mut removed)) = list_overlapping(&self.trie, &path) else {
            return Err(stock);
        };
        let bytes = held_of(&stock);
        match place(&mut self.trie, &path, paths.as_slice(), stock, &mut removed) {
            Ok(()) => {
                self.held = self.held - held_all(removed.as_slice()) + bytes;
                Ok(removed)
            }
            Err(stock) => Err(stock),
        }
    }

    /// Takes each row away that overlaps a path: these are given, in order of path. For want of memory nothing changes.
    pub fn remove_overlapping(&mut self, path: &Path) -> Result<Vec<Stock>, Memory>
        ensures stocks { self.new ≡ (if is_ok result then filter (is_clear_stock path.now) self.old else self.old) }
        ensures rows { rows_of self.new ≡ (if is_ok result then filter (is_clear_of path.now) (rows_of self.old) else rows_of self.old) }
        ensures removed { IfOk result (λ removed. removed.items ≡ filter (overlaps_stock path.now) self.old) }
    {
        match list_overlapping(&self.trie, path) {
            Ok((paths, mut removed)) => {
                take_overlapping(&mut self.trie, path, paths.as_slice(), &mut removed);
                self.held -= held_all(removed.as_slice());
                Ok(removed)
            }
            Err(Memory) => Err(Memory),
        }
    }

    /// Takes the row at exactly a path away, and gives it; where there is none, nothing changes. Takes no memory.
    pub fn remove(&mut self, path: &Path) -> Option<Stock>
        ensures stock { result ≡ find (stock_at path.now) self.old }
        ensures stocks { self.new ≡ filter (is_stock_elsewhere path.now) self.old }
        ensures rows { rows_of self.new ≡ filter (is_elsewhere path.now) (rows_of self.old) }
    {
        match take_one(&mut self.trie, path) {
            Some(stock) => {
                self.held -= held_of(&stock);
                Some(stock)
            }
            None => None,
        }
    }
}
