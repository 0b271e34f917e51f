ghost use Rattle.std.specs.Prelude.{◌≡◌, ◌++◌, ◌∷◌, ℕ, Bool, List, [], Some};
ghost use Rattle.mat_tree.specs.Parts.{Part, replaced, without};
ghost use Rattle.mat_model.specs.declared.answers.Reply.TheVariants as reply;
ghost use Rattle.mat_model.specs.declared.entries.Entry.{Entry};
ghost use Rattle.mat_model.specs.declared.entries.Event.TheVariants as event;
ghost use Rattle.mat_model.specs.declared.entries.Task.{Task};
ghost use Rattle.mat_model.specs.History.{Point, after, next_number};
ghost use Rattle.mat_model.specs.WorkState.{Job, path_of_task, running};
ghost use Rattle.model_laws.specs.KeptRules.{KeptAscend};
ghost use Rattle.model_laws.specs.StoredRules.{IsStored, path_of_job};
ghost use Rattle.region_port.specs.Calls.{Paths, paths_below, paths_of_both, paths_outside};
ghost use Rattle.core_laws.specs.DiskRules.{IsDisk, begun_unread};
ghost use Rattle.core_laws.specs.Whole.{HaveLentTrees, IsImage, IsWhole, Regions};

/// Each image of a disk that keeps its rules beside a point, with the jobs of the point, has each kept row whole without any loan.
pub fn disk_image_is_whole()
    ensures { (spoken : ℕ → Bool) (point : Point) (lent : List (List (List ℕ))) (regions : Regions) (content image : Part)
        (rough later : Paths) → IsStored point.book.rows point.work.jobs point.kept → IsDisk spoken point lent content rough →
        HaveLentTrees point.work.jobs regions → IsImage point.work.jobs regions content rough image later →
        IsWhole [] point.kept image later }
{}

/// So has each image once the part of a task has come back and before the one that its job read has: with the jobs of the point, the ending one among
/// them.
pub fn given_task_image_is_whole()
    ensures { (spoken : ℕ → Bool) (point : Point) (number : ℕ) (job : Job) (lent : List (List (List ℕ))) (regions : Regions)
        (inner content image : Part) (its rough later : Paths) → IsStored point.book.rows point.work.jobs point.kept →
        running number point.work ≡ Some job → IsDisk spoken point lent content rough → HaveLentTrees point.work.jobs regions →
        IsImage point.work.jobs regions (replaced (path_of_job job) inner content) (paths_of_both rough (paths_below (path_of_job job) its))
        image later → IsWhole [] point.kept image later }
{}

/// So has each image once a begin has taken its task and before it takes the part that this reads: with the new job among the jobs, as if it read
/// nothing.
pub fn taken_task_image_is_whole()
    ensures { (spoken : ℕ → Bool) (point : Point) (entry : Entry) (begun : Task) (lent : List (List (List ℕ))) (regions : Regions)
        (content image : Part) (rough later : Paths) → KeptAscend point.kept → entry.event ≡ event.Begin begun →
        entry.reply ≡ reply.Started →
        IsStored (after point entry).book.rows (after point entry).work.jobs (after point entry).kept →
        IsDisk spoken point lent content rough → HaveLentTrees point.work.jobs regions →
        IsImage (point.work.jobs ++ begun_unread (next_number point) entry.by.caller begun ∷ []) regions
        (without (path_of_task begun) content) (paths_outside (path_of_task begun) rough) image later →
        IsWhole [] (after point entry).kept image later }
{}
