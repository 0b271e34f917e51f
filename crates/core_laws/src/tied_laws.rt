ghost use Rattle.std.specs.Prelude.{◌≡◌, ◌⊎◌, ℕ, Bool, List, [], ◌∷◌, ◌++◌, Some, filter, true, false};
ghost use Rattle.std.specs.List.{Contains};
ghost use Rattle.mat_path.specs.Names.{is_prefix};
ghost use Rattle.mat_tree.specs.declared.flat.Flat.{Flat};
ghost use Rattle.mat_tree.specs.Parts.{HasTree, Part, replaced, without};
ghost use Rattle.mat_model.specs.declared.book.Row.{Row};
ghost use Rattle.mat_model.specs.declared.entries.Task.TheVariants as task;
ghost use Rattle.mat_model.specs.Rows.{are_apart};
ghost use Rattle.mat_model.specs.WorkState.{Debris, Job, Lent, WorkState, is_other_job, running};
ghost use Rattle.model_laws.specs.WorkRules.{IsWork, loans};
ghost use Rattle.region_port.specs.Calls.{Paths, paths_below, paths_of_both, paths_outside};
ghost use Rattle.core_laws.specs.Places.{IsBareBelow, IsSameBelow};
ghost use Rattle.core_laws.specs.Tied.{AreTied, IsClear, IsLeftBy, IsTreeAt, WasHome, is_home};

/// No row that is home overlaps a loan.
pub fn loan_is_clear()
    ensures { (next : ℕ) (rows : List Row) (work : WorkState) (loan : List (List ℕ)) → IsWork next rows work →
        Contains (loans work.jobs) loan → IsClear rows work.jobs loan }
{}

/// No row that is home overlaps debris.
pub fn debris_is_clear()
    ensures { (next : ℕ) (rows : List Row) (work : WorkState) (debris : Debris) → IsWork next rows work →
        Contains work.debris debris → IsClear rows work.jobs debris.path }
{}

/// No row that is home overlaps one that isn't.
pub fn away_row_is_clear()
    ensures { (rows : List Row) (jobs : List Job) (row : Row) → are_apart rows ≡ true → Contains rows row → is_home jobs row ≡ false →
        IsClear rows jobs row.path }
{}

/// A row that a job reads isn't home.
pub fn read_row_is_away()
    ensures { (jobs : List Job) (job : Job) (part : Lent) (row : Row) → Contains jobs job → job.lent ≡ Some part → part.stamp ≡ row.stamp →
        is_home jobs row ≡ false }
{}

/// A path that is clear of the rows stays so where a job begins.
pub fn begin_keeps_clear()
    ensures { (rows : List Row) (jobs : List Job) (job : Job) (place : List (List ℕ)) → IsClear rows jobs place →
        IsClear rows (jobs ++ job ∷ []) place }
{}

/// A take of a part that is clear of the rows keeps them tied.
pub fn take_keeps_tied()
    ensures { (spoken : ℕ → Bool) (rows : List Row) (jobs : List Job) (taken : List (List ℕ)) (content : Part) (rough : Paths) →
        AreTied spoken rows jobs content rough → IsClear rows jobs taken →
        AreTied spoken rows jobs (without taken content) (paths_outside taken rough) }
{}

/// So does a give of such a part, whatever it has become.
pub fn give_keeps_tied()
    ensures { (spoken : ℕ → Bool) (rows : List Row) (jobs : List Job) (given : List (List ℕ)) (inner content : Part) (its rough : Paths) →
        AreTied spoken rows jobs content rough → IsClear rows jobs given →
        AreTied spoken rows jobs (replaced given inner content) (paths_of_both rough (paths_below given its)) }
{}

/// A give of a part that has a tree and isn't rough brings the tree, where nothing was at or below its path.
pub fn give_brings_tree()
    ensures { (given : List (List ℕ)) (nodes : List Flat) (inner content : Part) (its rough : Paths) → IsBareBelow given content rough →
        HasTree inner nodes → ((path : List (List ℕ)) → is_prefix given path ≡ true → its path ≡ false) →
        IsTreeAt given nodes (replaced given inner content) (paths_of_both rough (paths_below given its)) }
{}

/// A tree stays where all stays as it was at and below its path.
pub fn same_keeps_tree()
    ensures { (place : List (List ℕ)) (nodes : List Flat) (old new : Part) (before after : Paths) →
        IsSameBelow place old before new after → IsTreeAt place nodes old before → IsTreeAt place nodes new after }
{}

/// Rows that change keep tied, where each that is home then was there and was home, or has its tree on the disk.
pub fn rows_keep_tied()
    ensures { (spoken : ℕ → Bool) (rows left : List Row) (jobs later : List Job) (content : Part) (rough : Paths) →
        AreTied spoken rows jobs content rough →
        ((row : Row) → Contains left row → is_home later row ≡ true → spoken row.stamp ≡ true →
        WasHome rows jobs row ⊎ IsTreeAt row.path row.tree content rough) →
        AreTied spoken left later content rough }
{}

/// Where a job begins, fewer rows are home, and they stay tied.
pub fn begin_keeps_tied()
    ensures { (spoken : ℕ → Bool) (rows : List Row) (jobs : List Job) (job : Job) (content : Part) (rough : Paths) →
        AreTied spoken rows jobs content rough → AreTied spoken rows (jobs ++ job ∷ []) content rough }
{}

/// Where a job ends, the rows stay tied, if the row that it made has its tree on the disk, and so has the one that it read, if that is still there.
pub fn end_keeps_tied()
    ensures { (spoken : ℕ → Bool) (next number : ℕ) (rows left : List Row) (work : WorkState) (job : Job) (content : Part) (rough : Paths) →
        IsWork next rows work → running number work ≡ Some job → AreTied spoken rows work.jobs content rough →
        ((row : Row) → Contains left row → IsLeftBy rows job row) →
        ((row : Row) → Contains left row → job.task ≡ task.Make row.path row.stamp → row.stands ≡ true → spoken row.stamp ≡ true →
        IsTreeAt row.path row.tree content rough) →
        ((row : Row) (part : Lent) → Contains left row → job.lent ≡ Some part → part.stamp ≡ row.stamp → spoken row.stamp ≡ true →
        IsTreeAt part.path part.tree content rough) →
        AreTied spoken left (filter (is_other_job number) work.jobs) content rough }
{}

/// Rows stay tied where fewer stamps are spoken for.
pub fn fewer_spoken_are_tied()
    ensures { (spoken still : ℕ → Bool) (rows : List Row) (jobs : List Job) (content : Part) (rough : Paths) →
        ((stamp : ℕ) → still stamp ≡ true → spoken stamp ≡ true) → AreTied spoken rows jobs content rough →
        AreTied still rows jobs content rough }
{}
