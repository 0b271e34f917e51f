//! Laws of the lists that row books are seen as.
ghost use Rattle.std.specs.Prelude.{◌≡◌, ◌+◌, ◌≤◌, ℕ, Bool, true, false, Some, List, find, map};
ghost use Rattle.std.specs.List.{filter, list_any};
ghost use Rattle.std.specs.Option.{option_map};
ghost use Rattle.mat_model.specs.declared.book.Row.{Row as TheRow};
ghost use Rattle.mat_model.specs.Rows.{are_apart, put_row, standing_row, used_row};
ghost use Rattle.row_book.specs.declared.stock.Stock.{Stock as TheStock};
ghost use Rattle.row_book.specs.Stocks.{held_bytes, held_of, is_clear_stock, is_held_method, marked_stock, overlaps_stock, put_stock, row_of, row_passes, rows_of, standing_stock, stock_at, supplied_stock, used_stock, with_method};
ghost use Rattle.write_plan.specs.declared.method.Method.{Method as TheMethod};

/// The list of rows and that of stocks correspond: what a test finds, leaves and meets among the rows, it does among the stocks, and a
/// row is put where its stock is. It does nothing.
pub fn rows_are_in_step()
    ensures found { (test : TheRow → Bool) (stocks : List TheStock) → option_map row_of (find (row_passes test) stocks) ≡ find test (rows_of stocks) }
    ensures left { (test : TheRow → Bool) (stocks : List TheStock) → rows_of (filter (row_passes test) stocks) ≡ filter test (rows_of stocks) }
    ensures met { (test : TheRow → Bool) (stocks : List TheStock) → list_any (row_passes test) stocks ≡ list_any test (rows_of stocks) }
    ensures put { (new : TheStock) (stocks : List TheStock) → rows_of (put_stock new stocks) ≡ put_row (row_of new) (rows_of stocks) }
{}

/// What a change of stocks is to their rows: a use and a stand are those of the model, and neither a mark nor a method is seen. It does
/// nothing.
pub fn changes_are_in_step()
    ensures used { (path : List (List ℕ)) (moment : ℕ) (stocks : List TheStock) → rows_of (map (used_stock path moment) stocks) ≡ map (used_row path moment) (rows_of stocks) }
    ensures standing { (path : List (List ℕ)) (stocks : List TheStock) → rows_of (map (standing_stock path) stocks) ≡ map (standing_row path) (rows_of stocks) }
    ensures marked { (path : List (List ℕ)) (dirty : Bool) (stocks : List TheStock) → rows_of (map (marked_stock path dirty) stocks) ≡ rows_of stocks }
    ensures supplied { (path : List (List ℕ)) (way : TheMethod) (stocks : List TheStock) → rows_of (map (supplied_stock path way) stocks) ≡ rows_of stocks }
{}

/// How many bytes are held: a stock that is put adds its own, those that overlap a path and those that don't are all, and where one
/// takes the place of others they are no more than before and its own; another method changes those of its row alone, and one that
/// holds none adds none. It does nothing.
pub fn held_is_in_step()
    ensures put { (new : TheStock) (stocks : List TheStock) → held_bytes (put_stock new stocks) ≡ held_of new + held_bytes stocks }
    ensures parted { (path : List (List ℕ)) (stocks : List TheStock) → held_bytes (filter (overlaps_stock path) stocks) + held_bytes (filter (is_clear_stock path) stocks) ≡ held_bytes stocks }
    ensures most { (path : List (List ℕ)) (new : TheStock) (stocks : List TheStock) → held_bytes (put_stock new (filter (is_clear_stock path) stocks)) ≤ held_bytes stocks + held_of new }
    ensures supplied { (path : List (List ℕ)) (way : TheMethod) (stocks : List TheStock) (found : TheStock) → are_apart (rows_of stocks) ≡ true → find (stock_at path) stocks ≡ Some found → held_bytes (map (supplied_stock path way) stocks) + held_of found ≡ held_bytes stocks + held_of (with_method way found) }
    ensures unheld { (path : List (List ℕ)) (way : TheMethod) (stocks : List TheStock) → is_held_method way ≡ false → held_bytes (map (supplied_stock path way) stocks) ≤ held_bytes stocks }
{}
