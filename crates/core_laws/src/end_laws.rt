ghost use Rattle.std.specs.Prelude.{◌≡◌, ℕ, List, Bool, Some, true};
ghost use Rattle.std.specs.List.{Contains};
ghost use Rattle.mat_tree.specs.Parts.{Part};
ghost use Rattle.mat_model.specs.declared.book.Row.{Row};
ghost use Rattle.mat_model.specs.declared.entries.Entry.{Entry};
ghost use Rattle.mat_model.specs.declared.entries.Event.TheVariants as event;
ghost use Rattle.mat_model.specs.declared.entries.Outcome.{Outcome};
ghost use Rattle.mat_model.specs.History.{Point, after, next_number};
ghost use Rattle.mat_model.specs.Legal.{IsRecorded, IsReplied};
ghost use Rattle.mat_model.specs.Rows.{are_apart};
ghost use Rattle.mat_model.specs.WorkState.{Job, running};
ghost use Rattle.model_laws.specs.StoredRules.{IsStored};
ghost use Rattle.model_laws.specs.WorkRules.{IsWork, loans_of};
ghost use Rattle.region_port.specs.Calls.{Paths};
ghost use Rattle.core_laws.specs.DiskRules.{IsDisk};
ghost use Rattle.core_laws.specs.Ends.{IsEndedPart, IsReadBack, IsReadSpoken, not_stored, with_job, with_rough_job};
ghost use Rattle.core_laws.specs.Loans.{given_back};
ghost use Rattle.core_laws.specs.Whole.{Regions};

/// The end of a job keeps the rules of the disk, once its task's part and then the part that it read are given back, and as long as what it records
/// isn't stored.
pub fn job_gives_keep_disk()
    ensures { (spoken : ℕ → Bool) (point : Point) (entry : Entry) (number : ℕ) (out : Outcome) (job : Job) (lent : List (List (List ℕ)))
        (regions : Regions) (inner content : Part) (its part rough : Paths) →
        IsWork (next_number point) point.book.rows point.work → IsStored point.book.rows point.work.jobs point.kept →
        entry.event ≡ event.Done number out → running number point.work ≡ Some job →
        IsEndedPart job.task out point.book.rows inner its → IsReadSpoken spoken job → IsReadBack spoken job regions part →
        IsDisk spoken point lent content rough →
        IsDisk spoken (not_stored point entry) (given_back (loans_of job) lent) (with_job job inner regions content)
        (with_rough_job job its part rough) }
{}

/// It keeps the rules of the kept rows so long, too.
pub fn job_gives_keep_stored()
    ensures { (point : Point) (entry : Entry) (number : ℕ) (out : Outcome) (job : Job) → are_apart point.book.rows ≡ true →
        IsStored point.book.rows point.work.jobs point.kept → entry.event ≡ event.Done number out → running number point.work ≡ Some job →
        IsStored (not_stored point entry).book.rows (not_stored point entry).work.jobs (not_stored point entry).kept }
{}

/// It keeps them once that is stored too: what it stores is the row that it made, which stands.
pub fn end_keeps_disk()
    ensures { (spoken : ℕ → Bool) (point : Point) (entry : Entry) (number : ℕ) (out : Outcome) (job : Job) (lent : List (List (List ℕ)))
        (regions : Regions) (inner content : Part) (its part rough : Paths) →
        IsWork (next_number point) point.book.rows point.work → IsStored point.book.rows point.work.jobs point.kept →
        IsReplied point entry → IsRecorded point entry → entry.event ≡ event.Done number out →
        running number point.work ≡ Some job → IsWork (next_number (after point entry)) (after point entry).book.rows (after point entry).work →
        ((row : Row) → Contains (after point entry).book.rows row → spoken row.stamp ≡ true) →
        IsEndedPart job.task out point.book.rows inner its → IsReadSpoken spoken job → IsReadBack spoken job regions part →
        IsDisk spoken point lent content rough →
        IsDisk spoken (after point entry) (given_back (loans_of job) lent) (with_job job inner regions content)
        (with_rough_job job its part rough) }
{}
