ghost use Rattle.std.specs.Prelude.{◌≡◌, ℕ, List, [], ◌∷◌, ◌++◌, Some, Bool, true};
ghost use Rattle.std.specs.List.{Contains};
ghost use Rattle.mat_tree.specs.Parts.{Part, without};
ghost use Rattle.mat_model.specs.declared.answers.FaultNote.{FaultNote};
ghost use Rattle.mat_model.specs.declared.answers.Reply.TheVariants as reply;
ghost use Rattle.mat_model.specs.declared.book.Row.{Row};
ghost use Rattle.mat_model.specs.declared.entries.Entry.{Entry};
ghost use Rattle.mat_model.specs.declared.entries.Event.TheVariants as event;
ghost use Rattle.mat_model.specs.declared.entries.Outcome.{Outcome};
ghost use Rattle.mat_model.specs.declared.entries.Task.{Task};
ghost use Rattle.mat_model.specs.declared.opening.Opening.{Opening};
ghost use Rattle.mat_model.specs.declared.requests.Asked.{Asked};
ghost use Rattle.mat_model.specs.History.{Point, after, next_number, opened};
ghost use Rattle.mat_model.specs.Legal.{IsReplied};
ghost use Rattle.mat_model.specs.Rows.{are_apart};
ghost use Rattle.mat_model.specs.WorkState.{Job, lent_for, path_of_task, running};
ghost use Rattle.model_laws.specs.WorkRules.{IsWork, claimed_by_part, loans_of};
ghost use Rattle.region_port.specs.Calls.{Paths, paths_outside};
ghost use Rattle.core_laws.specs.DiskRules.{IsTiedDisk, less_part, less_rough_part};
ghost use Rattle.core_laws.specs.Ends.{IsEndedPart, IsReadBack, with_job, with_rough_job};
ghost use Rattle.core_laws.specs.Loans.{given_back};
ghost use Rattle.core_laws.specs.Tied.{IsTreeAt};
ghost use Rattle.core_laws.specs.Whole.{Regions};

/// At an opening any disk that lends nothing keeps those of its rules that don't ask how it was then, where each row has its tree whose stamp is
/// spoken for.
pub fn opening_is_tied_disk()
    ensures { (spoken : ℕ → Bool) (opening : Opening) (content : Part) (rough : Paths) →
        ((row : Row) → Contains (opened opening).book.rows row → spoken row.stamp ≡ true → IsTreeAt row.path row.tree content rough) →
        IsTiedDisk spoken (opened opening) [] content rough }
{}

/// A request keeps them, whichever stamps are spoken for.
pub fn request_keeps_tied_disk()
    ensures { (spoken : ℕ → Bool) (point : Point) (entry : Entry) (request : Asked) (lent : List (List (List ℕ))) (content : Part)
        (rough : Paths) → are_apart point.book.rows ≡ true → entry.event ≡ event.Asked request →
        IsTiedDisk spoken point lent content rough → IsTiedDisk spoken (after point entry) lent content rough }
{}

/// So does the begin of a job, once its task and then the part that it reads are taken.
pub fn begin_keeps_tied_disk()
    ensures { (spoken : ℕ → Bool) (point : Point) (entry : Entry) (begun : Task) (lent : List (List (List ℕ))) (content : Part)
        (rough : Paths) → entry.event ≡ event.Begin begun → entry.reply ≡ reply.Started →
        IsWork (next_number (after point entry)) (after point entry).book.rows (after point entry).work →
        IsTiedDisk spoken point lent content rough →
        IsTiedDisk spoken (after point entry)
        (lent ++ path_of_task begun ∷ claimed_by_part (lent_for begun point.book.rows point.work.ways))
        (less_part (lent_for begun point.book.rows point.work.ways) (without (path_of_task begun) content))
        (less_rough_part (lent_for begun point.book.rows point.work.ways) (paths_outside (path_of_task begun) rough)) }
{}

/// So does a begin that is refused.
pub fn refused_begin_keeps_tied_disk()
    ensures { (spoken : ℕ → Bool) (point : Point) (entry : Entry) (begun : Task) (note : FaultNote) (lent : List (List (List ℕ)))
        (content : Part) (rough : Paths) → IsReplied point entry → entry.event ≡ event.Begin begun → entry.reply ≡ reply.Refused note →
        IsTiedDisk spoken point lent content rough → IsTiedDisk spoken (after point entry) lent content rough }
{}

/// So does the end of a job, once its task's part and then the part that it read are given back: the row that it made has its tree then, and so has the
/// one that it read, where its stamp is spoken for.
pub fn end_keeps_tied_disk()
    ensures { (spoken : ℕ → Bool) (point : Point) (entry : Entry) (number : ℕ) (out : Outcome) (job : Job) (lent : List (List (List ℕ)))
        (regions : Regions) (inner content : Part) (its part rough : Paths) →
        IsWork (next_number point) point.book.rows point.work → entry.event ≡ event.Done number out →
        running number point.work ≡ Some job → IsEndedPart job.task out point.book.rows inner its →
        IsReadBack spoken job regions part → IsTiedDisk spoken point lent content rough →
        IsTiedDisk spoken (after point entry) (given_back (loans_of job) lent) (with_job job inner regions content)
        (with_rough_job job its part rough) }
{}
