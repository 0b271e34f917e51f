ghost use Rattle.std.specs.Prelude.{◌≡◌, ◌<◌, ℕ, List, true};
ghost use Rattle.std.specs.List.{Contains};
ghost use Rattle.mat_model.specs.declared.book.Row.{Row};
ghost use Rattle.mat_model.specs.declared.entries.Entry.{Entry};
ghost use Rattle.mat_model.specs.declared.opening.Opening.{Opening};
ghost use Rattle.mat_model.specs.History.{Point, after, after_all, book_of, next_number, point_of};
ghost use Rattle.mat_model.specs.Openings.{IsOpening};
ghost use Rattle.mat_model.specs.Rows.{are_apart};
ghost use Rattle.model_laws.specs.RowRules.{AreStampedBelow, IsNoStamp, IsSameRow, RowStep};

/// Each row after an entry, legal or not, is the one that the entry declares, or was there: with the same path, tree, sum and stamp, and it
/// stands as it did or by the end of the make of exactly its path and its stamp.
pub fn entry_leaves_rows()
    ensures { (point : Point) (entry : Entry) (row : Row) →
        are_apart point.book.rows ≡ true → Contains (after point entry).book.rows row → RowStep point entry row }
{}

/// An entry, legal or not, leaves rows whose stamps differ pairwise and are below the number of the next entry, where they were so.
pub fn entry_keeps_stamps()
    ensures { (point : Point) (entry : Entry) →
        are_apart point.book.rows ≡ true → AreStampedBelow (next_number point) point.book.rows →
        AreStampedBelow (next_number (after point entry)) (after point entry).book.rows }
{}

/// Behind any entries, further ones leave the stamps so.
pub fn history_keeps_stamps()
    ensures { (point : Point) (later : List Entry) →
        are_apart point.book.rows ≡ true → AreStampedBelow (next_number point) point.book.rows →
        AreStampedBelow (next_number (after_all point later)) (after_all point later).book.rows }
{}

/// From an opening that is right, every history leads to rows whose stamps differ pairwise and are below the number of the next entry.
pub fn opening_keeps_stamps()
    ensures { (opening : Opening) (history : List Entry) →
        IsOpening opening → AreStampedBelow (next_number (point_of opening history)) (book_of opening history).rows }
{}

/// A stamp names one path, tree and sum: rows of one stamp at two points of a history have these alike.
pub fn stamp_names_row()
    ensures { (point : Point) (later : List Entry) (row other : Row) →
        are_apart point.book.rows ≡ true → AreStampedBelow (next_number point) point.book.rows →
        Contains point.book.rows row → Contains (after_all point later).book.rows other → other.stamp ≡ row.stamp → IsSameRow row other }
{}

/// A stamp below the number of the next entry that is no row's is no row's ever after.
pub fn gone_stamp_stays_gone()
    ensures { (point : Point) (later : List Entry) (stamp : ℕ) →
        are_apart point.book.rows ≡ true → stamp < next_number point → IsNoStamp point.book.rows stamp →
        IsNoStamp (after_all point later).book.rows stamp }
{}
