ghost use Rattle.std.specs.Prelude.{◌≡◌, ℕ, List, false};
ghost use Rattle.std.specs.List.{Contains};
ghost use Rattle.mat_path.specs.Names.{overlap};
ghost use Rattle.mat_model.specs.declared.book.Row.{Row};
ghost use Rattle.mat_model.specs.declared.entries.Entry.{Entry};
ghost use Rattle.mat_model.specs.Drained.{IsDrained};
ghost use Rattle.mat_model.specs.History.{Point, after, after_all, next_number};
ghost use Rattle.mat_model.specs.Legal.{ComesInOrder, IsEach};
ghost use Rattle.model_laws.specs.CleanRules.{IsCleanedAway, IsLeaving, IsWorkOnly};
ghost use Rattle.model_laws.specs.WorkRules.{IsWork, claims};

/// From a clean on, while jobs begin and end and nothing is asked, the path of each row that it removed is leaving, unless a wipe is refused or
/// fails: no row and no make overlaps it, and what does is condemned debris at this very path, or the row's part, which a job still reads.
pub fn cleaned_paths_are_leaving()
    ensures { (point : Point) (entry : Entry) (later : List Entry) (row : Row) →
        IsWork (next_number point) point.book.rows point.work → IsCleanedAway point entry row →
        IsEach ComesInOrder (after point entry) later → IsEach IsWorkOnly (after point entry) later →
        IsLeaving row.path (after_all (after point entry) later).book.rows (after_all (after point entry) later).work }
{}

/// Once all work is done behind such entries, the part of each row that the clean removed is wiped: no claim overlaps the row's path, so that none
/// is at or below it.
pub fn cleaned_parts_are_wiped()
    ensures { (point : Point) (entry : Entry) (later : List Entry) (row : Row) (claim : List (List ℕ)) →
        IsWork (next_number point) point.book.rows point.work → IsCleanedAway point entry row →
        IsEach ComesInOrder (after point entry) later → IsEach IsWorkOnly (after point entry) later →
        IsDrained (after_all (after point entry) later) →
        Contains (claims (after_all (after point entry) later).book.rows (after_all (after point entry) later).work) claim →
        overlap claim row.path ≡ false }
{}
