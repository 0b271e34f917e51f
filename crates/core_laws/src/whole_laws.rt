ghost use Rattle.std.specs.Prelude.{◌≡◌, ℕ, List, [], ◌∷◌, ◌++◌, Some, Bool, filter, true, false};
ghost use Rattle.std.specs.List.{Contains};
ghost use Rattle.mat_path.specs.Covering.{is_other_path};
ghost use Rattle.mat_path.specs.Names.{is_prefix, overlap};
ghost use Rattle.mat_tree.specs.Parts.{HasTree, Part, replaced, without};
ghost use Rattle.mat_model.specs.declared.book.Row.{Row};
ghost use Rattle.mat_model.specs.Kept.{KeptRow};
ghost use Rattle.mat_model.specs.WorkState.{Job, Lent, WorkState};
ghost use Rattle.model_laws.specs.StoredRules.{IsStored, IsStoredOf, path_of_job};
ghost use Rattle.model_laws.specs.WorkRules.{IsWork};
ghost use Rattle.region_port.specs.Calls.{Paths, paths_below, paths_of_both, paths_outside};
ghost use Rattle.core_laws.specs.Covered.{IsCovered, IsRoughCovered};
ghost use Rattle.core_laws.specs.Loans.{AreLoans};
ghost use Rattle.core_laws.specs.Places.{IsBareBelow, IsSameBelow};
ghost use Rattle.core_laws.specs.Tied.{AreTied};
ghost use Rattle.core_laws.specs.Whole.{AreWholeOrKept, HaveLentTrees, IsImage, IsWhole, IsWholeRow, Regions};

/// Kept rows are whole where each was there before, or is whole by itself: so rows may go, and one that may be kept may come.
pub fn kept_rows_stay_whole()
    ensures { (lent : List (List (List ℕ))) (kept left : List KeptRow) (content : Part) (rough : Paths) →
        IsWhole lent kept content rough → AreWholeOrKept lent kept left content rough → IsWhole lent left content rough }
{}

/// They stay whole where more is lent.
pub fn more_loans_keep_whole()
    ensures { (lent more : List (List (List ℕ))) (kept : List KeptRow) (content : Part) (rough : Paths) →
        ((loan : List (List ℕ)) → Contains lent loan → Contains more loan) → IsWhole lent kept content rough →
        IsWhole more kept content rough }
{}

/// They stay whole on a disk that has what it had, and is as rough.
pub fn same_keeps_whole()
    ensures { (lent : List (List (List ℕ))) (kept : List KeptRow) (old new : Part) (before after : Paths) →
        IsSameBelow [] old before new after → IsWhole lent kept old before → IsWhole lent kept new after }
{}

/// A take keeps them whole, whatever its path is, since this is lent from then on.
pub fn take_keeps_whole()
    ensures { (lent : List (List (List ℕ))) (kept : List KeptRow) (taken : List (List ℕ)) (content : Part) (rough : Paths) →
        IsWhole lent kept content rough → IsWhole (lent ++ taken ∷ []) kept (without taken content) (paths_outside taken rough) }
{}

/// A give of a job's task keeps them whole, whatever its part has become: it is apart from each kept row.
pub fn task_give_keeps_whole()
    ensures { (rows : List Row) (jobs : List Job) (lent : List (List (List ℕ))) (kept : List KeptRow) (job : Job)
        (inner content : Part) (its rough : Paths) → IsStored rows jobs kept → Contains jobs job → IsWhole lent kept content rough →
        IsWhole (filter (is_other_path (path_of_job job)) lent) kept (replaced (path_of_job job) inner content)
        (paths_of_both rough (paths_below (path_of_job job) its)) }
{}

/// So does a give of a part that a job reads, where the part still has its tree and isn't rough, and the disk had nothing there.
pub fn lent_give_keeps_whole()
    ensures { (rows : List Row) (jobs : List Job) (lent : List (List (List ℕ))) (kept : List KeptRow) (job : Job) (part : Lent)
        (inner content : Part) (its rough : Paths) → IsStored rows jobs kept → Contains jobs job → job.lent ≡ Some part →
        HasTree inner part.tree → ((path : List (List ℕ)) → is_prefix part.path path ≡ true → its path ≡ false) →
        IsBareBelow part.path content rough → IsWhole lent kept content rough →
        IsWhole (filter (is_other_path part.path) lent) kept (replaced part.path inner content)
        (paths_of_both rough (paths_below part.path its)) }
{}

/// A row that stands may be kept, where it is tied, and nodes and rough paths are at their places: then it is whole.
pub fn standing_row_is_whole()
    ensures { (spoken : ℕ → Bool) (next : ℕ) (rows : List Row) (work : WorkState) (lent : List (List (List ℕ))) (content : Part) (rough : Paths)
        (row : Row) (one : KeptRow) → IsWork next rows work → AreLoans work.jobs lent → AreTied spoken rows work.jobs content rough →
        IsCovered rows work content → IsRoughCovered work rough → Contains rows row → row.stands ≡ true → spoken row.stamp ≡ true →
        IsStoredOf one row.path row.tree → IsWholeRow lent content rough one }
{}

/// Each image of kept rows that are whole has each of them whole without any loan: its tree is there, nothing is rough, and no node is strictly above it.
pub fn image_is_whole()
    ensures { (rows : List Row) (jobs : List Job) (lent : List (List (List ℕ))) (kept : List KeptRow) (regions : Regions)
        (content image : Part) (rough after : Paths) → IsStored rows jobs kept → AreLoans jobs lent → HaveLentTrees jobs regions →
        IsWhole lent kept content rough → IsImage jobs regions content rough image after → IsWhole [] kept image after }
{}
