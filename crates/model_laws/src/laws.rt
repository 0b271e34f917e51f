ghost use Rattle.std.specs.Prelude.{◌≡◌, ◌<◌, ◌⊎◌, ℕ, List, Some, true, false, count_by};
ghost use Rattle.std.specs.List.{Contains, list_any, slice_get};
ghost use Rattle.mat_tree.specs.declared.sum.Sum.{Sum};
ghost use Rattle.mat_model.specs.declared.answers.Recorded.{Recorded};
ghost use Rattle.mat_model.specs.declared.answers.Reply.TheVariants as reply;
ghost use Rattle.mat_model.specs.declared.book.Book.{Book};
ghost use Rattle.mat_model.specs.declared.book.Row.{Row};
ghost use Rattle.mat_model.specs.declared.book.Ticket.{Ticket};
ghost use Rattle.mat_model.specs.declared.entries.Entry.{Entry};
ghost use Rattle.mat_model.specs.declared.entries.Outcome.{Outcome};
ghost use Rattle.mat_model.specs.declared.entries.Outcome.TheVariants as outcome;
ghost use Rattle.mat_model.specs.declared.entries.Task.{Task};
ghost use Rattle.mat_model.specs.declared.entries.Task.TheVariants as task;
ghost use Rattle.mat_model.specs.declared.requests.Asked.{Asked};
ghost use Rattle.mat_model.specs.Gate.{is_live};
ghost use Rattle.mat_model.specs.History.{Point, after_all};
ghost use Rattle.model_laws.specs.Laws.{AreKept, HasDeclared, IsAnswered, IsGated, IsLeftOut, IsPreempted, IsReady, StillStands, disturbs, is_disturbed};
ghost use Rattle.mat_model.specs.Requests.{RequestContext, ensure, serve};
ghost use Rattle.mat_model.specs.Tickets.{is_open};
ghost use Rattle.mat_model.specs.Declarations.{write, written_tree};
ghost use Rattle.mat_model.specs.Rows.{are_apart};
ghost use Rattle.mat_model.specs.Work.{finish};
ghost use Rattle.mat_model.specs.WorkState.{WorkState, first_make};

/// An ensure is answered that its path is ready only where a row of the book that stands covers it, and the answer names
/// that row's stamp and sum.
pub fn ready_is_true()
    ensures { (number command : ℕ) (path : List (List ℕ)) (book : Book) (stamp : ℕ) (sum : Sum) →
        (ensure number command path book).reply ≡ reply.Ready stamp sum → IsReady book.rows path stamp sum }
{}

/// A request takes no ticket away, and changes no ticket that has an answer.
pub fn serve_keeps_tickets()
    ensures { (number moment : ℕ) (context : RequestContext) (request : Asked) (book : Book) →
        AreKept book.tickets (serve number moment context request book).book.tickets }
{}

/// The end of a job takes no ticket away, and changes no ticket that has an answer.
pub fn finish_keeps_tickets()
    ensures { (number : ℕ) (task : Task) (out : Outcome) (how : Recorded) (book : Book) →
        AreKept book.tickets (finish number task out how book).book.tickets }
{}

/// A row that stands still stands after a request, unless that declares or removes at a path that overlaps the row's, or cleans.
pub fn serve_keeps_standing()
    ensures { (number moment : ℕ) (context : RequestContext) (request : Asked) (book : Book) (row : Row) →
        Contains book.rows row → row.stands ≡ true → disturbs request row ≡ false →
        StillStands row (serve number moment context request book).book.rows }
{}

/// A row that stands still stands after the end of a job.
pub fn finish_keeps_standing()
    ensures { (number : ℕ) (task : Task) (out : Outcome) (how : Recorded) (book : Book) (row : Row) →
        Contains book.rows row → row.stands ≡ true → StillStands row (finish number task out how book).book.rows }
{}

/// A request keeps the rows in strict order, and no two of them overlap.
pub fn serve_keeps_apart()
    ensures { (number moment : ℕ) (context : RequestContext) (request : Asked) (book : Book) →
        are_apart book.rows ≡ true → are_apart (serve number moment context request book).book.rows ≡ true }
{}

/// The end of a job keeps the rows in strict order, and no two of them overlap.
pub fn finish_keeps_apart()
    ensures { (number : ℕ) (task : Task) (out : Outcome) (how : Recorded) (book : Book) →
        are_apart book.rows ≡ true → are_apart (finish number task out how book).book.rows ≡ true }
{}

/// Behind any entries, further ones take no ticket away, and change no ticket that has an answer.
pub fn history_keeps_tickets()
    ensures { (point : Point) (later : List Entry) → AreKept point.book.tickets (after_all point later).book.tickets }
{}

/// A ticket that has an answer keeps it at its place, whatever comes.
pub fn answer_stays()
    ensures { (point : Point) (later : List Entry) (k : ℕ) (ticket : Ticket) →
        slice_get point.book.tickets k ≡ Some ticket → is_open ticket ≡ false →
        slice_get (after_all point later).book.tickets k ≡ Some ticket }
{}

/// A row that stands still stands behind further entries, unless one of them declares or removes at a path that overlaps the
/// row's, or cleans.
pub fn history_keeps_standing()
    ensures { (point : Point) (later : List Entry) (row : Row) →
        Contains point.book.rows row → row.stands ≡ true → list_any (is_disturbed row) later ≡ false →
        StillStands row (after_all point later).book.rows }
{}

/// Behind any entries, further ones keep the rows in strict order, and no two of them overlap.
pub fn history_keeps_apart()
    ensures { (point : Point) (later : List Entry) →
        are_apart point.book.rows ≡ true → are_apart (after_all point later).book.rows ≡ true }
{}

/// A request answers an open ticket only that nothing is declared, and only where no row covers any more what it asked for; or, where it is an
/// enter that took the place of the ticket's command, that its command was preempted by that one.
pub fn serve_answers_truly()
    ensures { (number moment : ℕ) (context : RequestContext) (request : Asked) (book : Book) (k : ℕ) (ticket other : Ticket) →
        slice_get book.tickets k ≡ Some ticket → is_open ticket ≡ true →
        slice_get (serve number moment context request book).book.tickets k ≡ Some other → is_open other ≡ false →
        IsLeftOut number (serve number moment context request book).book.rows ticket other
        ⊎ IsPreempted number request book.live ticket other }
{}

/// The end of a make that made its row answers an open ticket only with the stamp and the sum of the row that it made, which then stands and
/// covers what the ticket asked for.
pub fn finish_answers_truly()
    ensures { (number : ℕ) (path : List (List ℕ)) (stamp : ℕ) (how : Recorded) (book : Book) (k : ℕ) (ticket other : Ticket) →
        slice_get book.tickets k ≡ Some ticket → is_open ticket ≡ true →
        slice_get (finish number (task.Make path stamp) outcome.Made how book).book.tickets k ≡ Some other → is_open other ≡ false →
        IsAnswered number path stamp (finish number (task.Make path stamp) outcome.Made how book).book.rows ticket other }
{}

/// The end of the make that comes first leaves fewer tickets open.
pub fn first_make_answers()
    ensures { (work : WorkState) (number : ℕ) (path : List (List ℕ)) (stamp : ℕ) (how : Recorded) (book : Book) →
        are_apart book.rows ≡ true → first_make work book.rows book.tickets ≡ Some (task.Make path stamp) →
        count_by is_open (finish number (task.Make path stamp) outcome.Made how book).book.tickets
        < count_by is_open book.tickets }
{}

/// A live command's write is answered with the stamp of a row at its path that has its tree, be it a new one or one that
/// was there.
pub fn write_is_declared()
    ensures { (number command : ℕ) (path : List (List ℕ)) (sum : Sum) (book : Book) → is_live command book ≡ true →
        HasDeclared
        (write number command path sum book).book.rows path (written_tree sum)
        (write number command path sum book).reply }
{}

/// A request keeps the gate sound: at most 64 commands are live, and there is no state exactly where nobody is live.
pub fn serve_keeps_gate()
    ensures { (number moment : ℕ) (context : RequestContext) (request : Asked) (book : Book) →
        IsGated book → IsGated (serve number moment context request book).book }
{}

/// Further entries keep the gate sound.
pub fn history_keeps_gate()
    ensures { (point : Point) (later : List Entry) → IsGated point.book → IsGated (after_all point later).book }
{}
