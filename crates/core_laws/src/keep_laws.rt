ghost use Rattle.std.specs.Prelude.{◌≡◌, ℕ, List, Bool, true, Some};
ghost use Rattle.std.specs.List.{Contains};
ghost use Rattle.mat_tree.specs.Parts.{Part, replaced};
ghost use Rattle.mat_model.specs.declared.book.Row.{Row};
ghost use Rattle.mat_model.specs.declared.entries.Entry.{Entry};
ghost use Rattle.mat_model.specs.declared.entries.Event.TheVariants as event;
ghost use Rattle.mat_model.specs.declared.entries.Task.{Task};
ghost use Rattle.mat_model.specs.History.{Point, after, next_number};
ghost use Rattle.mat_model.specs.Kept.{KeptRow, kept_row, store_rows};
ghost use Rattle.mat_model.specs.Legal.{IsRecorded, IsReplied};
ghost use Rattle.mat_model.specs.WorkState.{Job, WorkState, running};
ghost use Rattle.model_laws.specs.KeptRules.{KeptAscend};
ghost use Rattle.model_laws.specs.StoredRules.{IsStored, path_of_job};
ghost use Rattle.model_laws.specs.WorkRules.{IsWork, loans_of};
ghost use Rattle.region_port.specs.Calls.{Paths, paths_below, paths_of_both};
ghost use Rattle.core_laws.specs.Covered.{IsCovered, IsRoughCovered};
ghost use Rattle.core_laws.specs.Loans.{AreLoans, AreOut, given_back};
ghost use Rattle.core_laws.specs.Tied.{AreTied};
ghost use Rattle.core_laws.specs.Whole.{AreAgain, HasLentTree, IsPartSettled, IsWhole, IsWholeRow, Regions, with_part, with_rough_part};

/// Kept rows are whole that have the paths and trees of kept rows which are.
pub fn same_trees_are_whole()
    ensures { (lent : List (List (List ℕ))) (kept left : List KeptRow) (content : Part) (rough : Paths) →
        IsWhole lent kept content rough → AreAgain kept left → IsWhole lent left content rough }
{}

/// So are those among which rows are stored, each of which may be kept.
pub fn stored_rows_are_whole()
    ensures { (lent : List (List (List ℕ))) (kept : List KeptRow) (some : List Row) (content : Part) (rough : Paths) → KeptAscend kept →
        IsWhole lent kept content rough → ((row : Row) → Contains some row → IsWholeRow lent content rough (kept_row row)) →
        IsWhole lent (store_rows some kept) content rough }
{}

/// So are they once all has come back that is out for a job: its task, whatever it has become, and then the part that it read, still with its tree.
pub fn job_gives_keep_whole()
    ensures { (next number : ℕ) (rows : List Row) (work : WorkState) (lent : List (List (List ℕ))) (kept : List KeptRow) (job : Job)
        (regions : Regions) (inner content : Part) (its part rough : Paths) → IsWork next rows work → IsStored rows work.jobs kept →
        running number work ≡ Some job → AreLoans work.jobs lent → AreOut lent content rough → HasLentTree job.lent regions →
        IsPartSettled job.lent part → IsWhole lent kept content rough →
        IsWhole (given_back (loans_of job) lent) kept (with_part job.lent regions (replaced (path_of_job job) inner content))
        (with_rough_part job.lent part (paths_of_both rough (paths_below (path_of_job job) its))) }
{}

/// The begin of a job keeps them whole, whatever the disk is: none comes.
pub fn begin_keeps_whole()
    ensures { (point : Point) (entry : Entry) (begun : Task) (lent : List (List (List ℕ))) (content : Part) (rough : Paths) →
        KeptAscend point.kept → entry.event ≡ event.Begin begun → IsWhole lent point.kept content rough →
        IsWhole lent (after point entry).kept content rough }
{}

/// So does any entry, on a disk where the other rules hold behind it: what it stores is a row that stands then.
pub fn entry_keeps_whole()
    ensures { (spoken : ℕ → Bool) (point : Point) (entry : Entry) (lent : List (List (List ℕ))) (content : Part) (rough : Paths) →
        KeptAscend point.kept → IsReplied point entry → IsRecorded point entry →
        IsWork (next_number (after point entry)) (after point entry).book.rows (after point entry).work →
        AreLoans (after point entry).work.jobs lent →
        AreTied spoken (after point entry).book.rows (after point entry).work.jobs content rough →
        IsCovered (after point entry).book.rows (after point entry).work content → IsRoughCovered (after point entry).work rough →
        ((row : Row) → Contains (after point entry).book.rows row → spoken row.stamp ≡ true) →
        IsWhole lent point.kept content rough → IsWhole lent (after point entry).kept content rough }
{}
