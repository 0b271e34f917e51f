ghost use Rattle.std.specs.Prelude.{◌≡◌, ℕ, List, [], Some, Bool, false, filter};
ghost use Rattle.mat_tree.specs.Parts.{Part, replaced};
ghost use Rattle.mat_model.specs.declared.book.Row.{Row};
ghost use Rattle.mat_model.specs.WorkState.{Job, WorkState, is_other_job, running};
ghost use Rattle.model_laws.specs.StoredRules.{path_of_job};
ghost use Rattle.model_laws.specs.WorkRules.{IsWork};
ghost use Rattle.region_port.specs.Calls.{Paths, paths_below, paths_of_both};
ghost use Rattle.region_port.specs.Crashes.{Crashes};
ghost use Rattle.region_port.specs.declared.crash.Rest.{Rest};
ghost use Rattle.core_laws.specs.Whole.{IsImage, IsPartSettled, IsReturned, Regions, with_part, with_rough_part};

/// A disk is as it is once all has come back, where no job runs.
pub fn nothing_is_returned()
    ensures { (regions : Regions) (content : Part) (rough : Paths) → IsReturned [] regions content rough content rough }
{}

/// Where the task of a job comes back, whatever it has become, then the part that it reads, and then all of the other jobs, all has come back.
pub fn job_is_returned()
    ensures { (next number : ℕ) (rows : List Row) (work : WorkState) (job : Job) (regions : Regions)
        (inner content full : Part) (its part rough all : Paths) → IsWork next rows work → running number work ≡ Some job →
        IsPartSettled job.lent part →
        IsReturned (filter (is_other_job number) work.jobs) regions
        (with_part job.lent regions (replaced (path_of_job job) inner content))
        (with_rough_part job.lent part (paths_of_both rough (paths_below (path_of_job job) its))) full all →
        IsReturned work.jobs regions content rough full all }
{}

/// A crash of a disk to which all has come back leaves an image of the one with the loans.
pub fn crash_leaves_image()
    ensures { (jobs : List Job) (regions : Regions) (rest : Rest) (content full image : Part) (rough all after : Paths) →
        IsReturned jobs regions content rough full all → Crashes rest all full image → ((path : List (List ℕ)) → after path ≡ false) →
        IsImage jobs regions content rough image after }
{}
