ghost use Rattle.std.specs.Prelude.{◌≡◌, ℕ, Bool, Some, filter, true};
ghost use Rattle.std.specs.List.{Contains};
ghost use Rattle.mat_tree.specs.Parts.{Part};
ghost use Rattle.mat_model.specs.declared.book.Row.{Row};
ghost use Rattle.mat_model.specs.declared.entries.Entry.{Entry};
ghost use Rattle.mat_model.specs.declared.entries.Event.TheVariants as event;
ghost use Rattle.mat_model.specs.declared.entries.Outcome.{Outcome};
ghost use Rattle.mat_model.specs.declared.requests.Asked.{Asked};
ghost use Rattle.mat_model.specs.History.{Point, after};
ghost use Rattle.mat_model.specs.Rows.{are_apart};
ghost use Rattle.mat_model.specs.WorkState.{Job, is_other_job, running};
ghost use Rattle.region_port.specs.Calls.{Paths};
ghost use Rattle.core_laws.specs.Tied.{AreTied, IsLeftBy};

/// A request leaves the jobs as they are.
pub fn request_keeps_jobs()
    ensures { (point : Point) (entry : Entry) (request : Asked) → entry.event ≡ event.Asked request →
        (after point entry).work.jobs ≡ point.work.jobs }
{}

/// The end of a job leaves the other jobs.
pub fn end_drops_job()
    ensures { (point : Point) (entry : Entry) (number : ℕ) (out : Outcome) (job : Job) → entry.event ≡ event.Done number out →
        running number point.work ≡ Some job → (after point entry).work.jobs ≡ filter (is_other_job number) point.work.jobs }
{}

/// The end of a job leaves each row as it was, or it made the row.
pub fn end_leaves_rows()
    ensures { (point : Point) (entry : Entry) (number : ℕ) (out : Outcome) (job : Job) (row : Row) → are_apart point.book.rows ≡ true →
        entry.event ≡ event.Done number out → running number point.work ≡ Some job → Contains (after point entry).book.rows row →
        IsLeftBy point.book.rows job row }
{}

/// A request keeps the rows tied, whatever rows go and whichever comes, which lies.
pub fn request_keeps_tied()
    ensures { (spoken : ℕ → Bool) (point : Point) (entry : Entry) (request : Asked) (content : Part) (rough : Paths) →
        are_apart point.book.rows ≡ true → entry.event ≡ event.Asked request →
        AreTied spoken point.book.rows point.work.jobs content rough →
        AreTied spoken (after point entry).book.rows (after point entry).work.jobs content rough }
{}
