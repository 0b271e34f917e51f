ghost use Rattle.std.specs.Prelude.{◌≡◌, ℕ, List, [], ◌∷◌, ◌++◌, Bool, true, map};
ghost use Rattle.std.specs.List.{Contains};
ghost use Rattle.mat_tree.specs.Parts.{Part, without};
ghost use Rattle.mat_model.specs.declared.answers.Reply.TheVariants as reply;
ghost use Rattle.mat_model.specs.declared.book.Row.{Row};
ghost use Rattle.mat_model.specs.declared.entries.Entry.{Entry};
ghost use Rattle.mat_model.specs.declared.entries.Event.TheVariants as event;
ghost use Rattle.mat_model.specs.declared.entries.Task.{Task};
ghost use Rattle.mat_model.specs.declared.opening.Opening.{Opening};
ghost use Rattle.mat_model.specs.declared.requests.Asked.{Asked};
ghost use Rattle.mat_model.specs.declared.answers.FaultNote.{FaultNote};
ghost use Rattle.mat_model.specs.History.{Point, after, next_number, opened};
ghost use Rattle.mat_model.specs.Legal.{IsRecorded, IsReplied};
ghost use Rattle.mat_model.specs.Openings.{IsOpening, opening_rows, path_of_row};
ghost use Rattle.mat_model.specs.WorkState.{lent_for, path_of_task};
ghost use Rattle.model_laws.specs.KeptRules.{KeptAscend};
ghost use Rattle.model_laws.specs.StoredRules.{IsStored};
ghost use Rattle.model_laws.specs.WorkRules.{IsWork, claimed_by_part};
ghost use Rattle.region_port.specs.Calls.{Paths, paths_outside};
ghost use Rattle.region_port.specs.Strays.{AreTopmost, candidates};
ghost use Rattle.core_laws.specs.DiskRules.{IsDisk, less_part, less_rough_part};
ghost use Rattle.core_laws.specs.Places.{IsSameBelow};
ghost use Rattle.core_laws.specs.Whole.{HaveLentTrees, IsImage, Regions};

/// A disk that has what another one has, and is as rough, keeps its rules too: so where parts are taken and given back unchanged.
pub fn same_keeps_disk()
    ensures { (spoken : ℕ → Bool) (point : Point) (lent : List (List (List ℕ))) (old new : Part) (before after : Paths) →
        IsSameBelow [] old before new after → IsDisk spoken point lent old before → IsDisk spoken point lent new after }
{}

/// A request keeps the rules of the disk, which it leaves as it is: what it stores are rows that stand.
pub fn request_keeps_disk()
    ensures { (spoken : ℕ → Bool) (point : Point) (entry : Entry) (request : Asked) (lent : List (List (List ℕ))) (content : Part)
        (rough : Paths) → IsWork (next_number point) point.book.rows point.work → IsStored point.book.rows point.work.jobs point.kept →
        IsReplied point entry → IsRecorded point entry → entry.event ≡ event.Asked request →
        IsWork (next_number (after point entry)) (after point entry).book.rows (after point entry).work →
        ((row : Row) → Contains (after point entry).book.rows row → spoken row.stamp ≡ true) →
        IsDisk spoken point lent content rough → IsDisk spoken (after point entry) lent content rough }
{}

/// The begin of a job keeps them, once its task and then the part that it reads are taken.
pub fn begin_keeps_disk()
    ensures { (spoken : ℕ → Bool) (point : Point) (entry : Entry) (begun : Task) (lent : List (List (List ℕ))) (content : Part)
        (rough : Paths) → KeptAscend point.kept → entry.event ≡ event.Begin begun → entry.reply ≡ reply.Started →
        IsWork (next_number (after point entry)) (after point entry).book.rows (after point entry).work →
        IsDisk spoken point lent content rough →
        IsDisk spoken (after point entry)
        (lent ++ path_of_task begun ∷ claimed_by_part (lent_for begun point.book.rows point.work.ways))
        (less_part (lent_for begun point.book.rows point.work.ways) (without (path_of_task begun) content))
        (less_rough_part (lent_for begun point.book.rows point.work.ways) (paths_outside (path_of_task begun) rough)) }
{}

/// So does a begin that is refused, on a disk that is as it was.
pub fn refused_begin_keeps_disk()
    ensures { (spoken : ℕ → Bool) (point : Point) (entry : Entry) (begun : Task) (note : FaultNote) (lent : List (List (List ℕ)))
        (content : Part) (rough : Paths) → IsReplied point entry → entry.event ≡ event.Begin begun → entry.reply ≡ reply.Refused note →
        IsDisk spoken point lent content rough → IsDisk spoken (after point entry) lent content rough }
{}

/// A restart on an image keeps them: nothing is lost, its rows are the kept ones, and its strays are the topmost nodes that are apart from their paths.
pub fn restart_keeps_disk()
    ensures { (spoken still : ℕ → Bool) (point : Point) (opening : Opening) (lent known : List (List (List ℕ))) (regions : Regions)
        (content image : Part) (rough after : Paths) → IsStored point.book.rows point.work.jobs point.kept →
        IsDisk spoken point lent content rough → HaveLentTrees point.work.jobs regions →
        IsImage point.work.jobs regions content rough image after → IsOpening opening → opening.lost ≡ [] →
        opening.rows ≡ opening_rows [] point.kept →
        ((path : List (List ℕ)) → Contains known path → Contains (map path_of_row opening.rows) path) →
        AreTopmost (candidates known image) opening.strays → IsDisk still (opened opening) [] image after }
{}
