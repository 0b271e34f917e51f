ghost use Rattle.std.specs.Prelude.{◌≡◌, ◌≢◌, ◌≤◌, ℕ, List, Some, map, true, false};
ghost use Rattle.std.specs.List.{Contains};
ghost use Rattle.mat_path.specs.Covering.{covering};
ghost use Rattle.mat_path.specs.Names.{overlap};
ghost use Rattle.mat_model.specs.declared.book.Row.{Row};
ghost use Rattle.mat_model.specs.declared.entries.Task.TheVariants as task;
ghost use Rattle.mat_model.specs.WorkState.{Debris, Job, Lent, WorkState, leaves_debris, path_of_debris, path_of_task};
ghost use Rattle.model_laws.specs.WorkRules.{IsReadOf, IsWork, claimed_by_job, is_on_disk, loans, loans_of};

/// No path is covered twice by the loans of the jobs.
pub fn loans_cover_once()
    ensures { (next : ℕ) (rows : List Row) (work : WorkState) → IsWork next rows work →
        (x : List (List ℕ)) → covering x (loans work.jobs) ≤ 1 }
{}

/// The loans of two jobs don't overlap.
pub fn loans_are_apart()
    ensures { (next : ℕ) (rows : List Row) (work : WorkState) (job other : Job) (p q : List (List ℕ)) → IsWork next rows work →
        Contains work.jobs job → Contains work.jobs other → job.number ≢ other.number →
        Contains (loans_of job) p → Contains (loans_of other) q → overlap p q ≡ false }
{}

/// Nor do the two loans of one job: the part that it reads is apart from its task.
pub fn read_part_is_apart()
    ensures { (next : ℕ) (rows : List Row) (work : WorkState) (job : Job) (part : Lent) → IsWork next rows work →
        Contains work.jobs job → job.lent ≡ Some part → overlap (path_of_task job.task) part.path ≡ false }
{}

/// No path is covered twice by debris, so that no two of its paths overlap.
pub fn debris_covers_once()
    ensures { (next : ℕ) (rows : List Row) (work : WorkState) → IsWork next rows work →
        (x : List (List ℕ)) → covering x (map path_of_debris work.debris) ≤ 1 }
{}

/// Debris overlaps no loan but that of its own wipe.
pub fn debris_meets_own_wipe()
    ensures { (next : ℕ) (rows : List Row) (work : WorkState) (debris : Debris) (job : Job) (p : List (List ℕ)) → IsWork next rows work →
        Contains work.debris debris → Contains work.jobs job → Contains (loans_of job) p → overlap debris.path p ≡ true →
        (job.task ≡ task.Wipe debris.path) × (p ≡ debris.path) }
{}

/// A row that stands or is dirty overlaps no debris.
pub fn row_meets_no_debris()
    ensures { (next : ℕ) (rows : List Row) (work : WorkState) (row : Row) (debris : Debris) → IsWork next rows work →
        Contains rows row → is_on_disk work row ≡ true → Contains work.debris debris → overlap row.path debris.path ≡ false }
{}

/// A row that stands or is dirty overlaps no loan but the part that was lent from it.
pub fn row_meets_own_loan()
    ensures { (next : ℕ) (rows : List Row) (work : WorkState) (row : Row) (job : Job) (p : List (List ℕ)) → IsWork next rows work →
        Contains rows row → is_on_disk work row ≡ true → Contains work.jobs job → Contains (loans_of job) p →
        overlap row.path p ≡ true → IsReadOf row job p }
{}

/// A row that leaves debris where it is removed overlaps no debris.
pub fn removed_row_meets_no_debris()
    ensures { (next : ℕ) (rows : List Row) (work : WorkState) (row : Row) (debris : Debris) → IsWork next rows work →
        Contains rows row → leaves_debris work row ≡ true → Contains work.debris debris → overlap row.path debris.path ≡ false }
{}

/// And it overlaps no loan.
pub fn removed_row_meets_no_loan()
    ensures { (next : ℕ) (rows : List Row) (work : WorkState) (row : Row) (job : Job) (p : List (List ℕ)) → IsWork next rows work →
        Contains rows row → leaves_debris work row ≡ true → Contains work.jobs job → Contains (loans_of job) p → overlap row.path p ≡ false }
{}

/// What comes back of a make, and of a part that was read, overlaps no debris.
pub fn returned_part_meets_no_debris()
    ensures { (next : ℕ) (rows : List Row) (work : WorkState) (debris : Debris) (job : Job) (p : List (List ℕ)) → IsWork next rows work →
        Contains work.debris debris → Contains work.jobs job → Contains (claimed_by_job job) p → overlap debris.path p ≡ false }
{}
