ghost use Rattle.std.specs.Prelude.{◌≡◌, ℕ, Bool, List, [], ◌∷◌, ◌++◌, Some, None, true, false};
ghost use Rattle.std.specs.List.{list_any};
ghost use Rattle.mat_path.specs.Names.{overlap};
ghost use Rattle.mat_tree.specs.Parts.{Part};
ghost use Rattle.mat_model.specs.declared.answers.FaultNote.{FaultNote};
ghost use Rattle.mat_model.specs.declared.book.Book.{Book};
ghost use Rattle.mat_model.specs.declared.book.Row.{Row};
ghost use Rattle.mat_model.specs.declared.entries.Entry.{Entry};
ghost use Rattle.mat_model.specs.declared.entries.Event.TheVariants as event;
ghost use Rattle.mat_model.specs.declared.entries.Task.{Task};
ghost use Rattle.mat_model.specs.declared.entries.Task.TheVariants as task;
ghost use Rattle.mat_model.specs.History.{Point, after, next_number, refusal_note};
ghost use Rattle.mat_model.specs.Rows.{are_apart};
ghost use Rattle.mat_model.specs.WorkState.{Lent, WayOf, WorkState, is_lent, lent_for, refused, started};
ghost use Rattle.model_laws.specs.FirstRules.{MakeMayBegin};
ghost use Rattle.model_laws.specs.RowRules.{served_at};
ghost use Rattle.model_laws.specs.WorkRules.{IsWork};
ghost use Rattle.region_port.specs.Calls.{Paths};
ghost use Rattle.core_laws.specs.Loans.{AreLoans};
ghost use Rattle.core_laws.specs.Sources.{IsSourceOf};
ghost use Rattle.core_laws.specs.Tied.{AreTied, IsClear, IsTreeAt};

/// A part that a task reads is that of a row that stands.
pub fn read_part_is_of_row()
    ensures { (begun : Task) (rows : List Row) (ways : List WayOf) (part : Lent) → lent_for begun rows ways ≡ Some part → IsSourceOf rows part }
{}

/// The path of a make that may begin is clear of the rows.
pub fn begun_make_is_clear()
    ensures { (number caller : ℕ) (work : WorkState) (book : Book) (path : List (List ℕ)) (stamp : ℕ) → are_apart book.rows ≡ true →
        MakeMayBegin work book path stamp → IsClear book.rows (started number caller (task.Make path stamp) book.rows work).jobs path }
{}

/// So is the path of the part that it reads, since that isn't home any more.
pub fn begun_part_is_clear()
    ensures { (number caller : ℕ) (work : WorkState) (rows : List Row) (path : List (List ℕ)) (stamp : ℕ) (part : Lent) →
        are_apart rows ≡ true → lent_for (task.Make path stamp) rows work.ways ≡ Some part →
        IsClear rows (started number caller (task.Make path stamp) rows work).jobs part.path }
{}

/// The part that a make reads is apart from its path, so that it may be taken too, once the make's own part is taken.
pub fn begun_part_is_not_lent()
    ensures { (work : WorkState) (book : Book) (path : List (List ℕ)) (stamp : ℕ) (part : Lent) (lent : List (List (List ℕ))) →
        are_apart book.rows ≡ true → MakeMayBegin work book path stamp → lent_for (task.Make path stamp) book.rows work.ways ≡ Some part →
        AreLoans work.jobs lent → list_any (overlap part.path) (lent ++ path ∷ []) ≡ false }
{}

/// A part that no loan overlaps, and that a task reads, has its tree on the disk, where its stamp is spoken for.
pub fn begun_part_has_tree()
    ensures { (next : ℕ) (spoken : ℕ → Bool) (rows : List Row) (work : WorkState) (begun : Task) (part : Lent) (content : Part) (rough : Paths) →
        IsWork next rows work → AreTied spoken rows work.jobs content rough → lent_for begun rows work.ways ≡ Some part →
        is_lent part.path work.jobs ≡ false → spoken part.stamp ≡ true → IsTreeAt part.path part.tree content rough }
{}

/// A begin leaves the rows as they are, whether it started or was refused.
pub fn begin_keeps_rows()
    ensures { (point : Point) (entry : Entry) (begun : Task) → entry.event ≡ event.Begin begun →
        (after point entry).book.rows ≡ point.book.rows }
{}

/// A begin that wasn't refused starts its job.
pub fn begin_starts_job()
    ensures { (point : Point) (entry : Entry) (begun : Task) → entry.event ≡ event.Begin begun →
        refusal_note (served_at point entry).reply ≡ None →
        (after point entry).work ≡ started (next_number point) entry.by.caller begun point.book.rows point.work }
{}

/// A begin that was refused starts none, and changes at most a mark of debris.
pub fn refused_begin_starts_none()
    ensures { (point : Point) (entry : Entry) (begun : Task) (note : FaultNote) → entry.event ≡ event.Begin begun →
        refusal_note (served_at point entry).reply ≡ Some note → (after point entry).work ≡ refused begun point.work }
{}

/// So the jobs stay.
pub fn refused_begin_keeps_jobs()
    ensures { (begun : Task) (work : WorkState) → (refused begun work).jobs ≡ work.jobs }
{}
