ghost use Rattle.std.specs.Prelude.{◌≡◌, ℕ, List, [], Some, None};
ghost use Rattle.mat_model.specs.declared.book.Book.{Book};
ghost use Rattle.mat_model.specs.declared.entries.Task.TheVariants as task;
ghost use Rattle.mat_model.specs.Books.{IsBook};
ghost use Rattle.mat_model.specs.Drained.{IsDrained};
ghost use Rattle.mat_model.specs.History.{Point};
ghost use Rattle.mat_model.specs.WorkState.{WorkState, first_task};
ghost use Rattle.model_laws.specs.FirstRules.{MakeMayBegin, WipeMayBegin};

/// A make that comes first is that of a row that lies and has an open ticket; no loan overlaps its path, no debris is strictly above it, and the
/// part that it would read is on no loan.
pub fn first_make_may_begin()
    ensures { (work : WorkState) (book : Book) (path : List (List ℕ)) (stamp : ℕ) →
        first_task work book ≡ Some (task.Make path stamp) → MakeMayBegin work book path stamp }
{}

/// A wipe that comes first is that of debris; no loan overlaps it, and it is condemned or strictly above a row that has an open ticket.
pub fn first_wipe_may_begin()
    ensures { (work : WorkState) (book : Book) (path : List (List ℕ)) →
        first_task work book ≡ Some (task.Wipe path) → WipeMayBegin work book path }
{}

/// Where no job runs and no task comes first, in a book that keeps its rules, all work is done: no ticket is open and nothing is condemned.
pub fn nothing_first_is_drained()
    ensures { (next : ℕ) (point : Point) →
        IsBook next point.book → point.work.jobs ≡ [] → first_task point.work point.book ≡ None → IsDrained point }
{}
