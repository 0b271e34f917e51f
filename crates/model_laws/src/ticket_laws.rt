ghost use Rattle.std.specs.Prelude.{◌≡◌, ℕ, Bool, List, Some, map, filter, find, not, true, false};
ghost use Rattle.std.specs.List.{Contains, list_any};
ghost use Rattle.mat_path.specs.Names.{is_prefix, overlap};
ghost use Rattle.mat_model.specs.declared.answers.Answer.{Answer};
ghost use Rattle.mat_model.specs.declared.answers.Answer.TheVariants as answer;
ghost use Rattle.mat_model.specs.declared.answers.FaultNote.{FaultNote};
ghost use Rattle.mat_model.specs.declared.answers.Recorded.{Recorded};
ghost use Rattle.mat_model.specs.declared.answers.Recorded.TheVariants as recorded;
ghost use Rattle.mat_model.specs.declared.answers.Reply.TheVariants as reply;
ghost use Rattle.mat_model.specs.declared.book.Book.{Book};
ghost use Rattle.mat_model.specs.declared.book.Row.{Row};
ghost use Rattle.mat_model.specs.declared.book.Ticket.{Ticket};
ghost use Rattle.mat_model.specs.declared.entries.Outcome.{Outcome};
ghost use Rattle.mat_model.specs.declared.entries.Outcome.TheVariants as outcome;
ghost use Rattle.mat_model.specs.declared.entries.Task.TheVariants as task;
ghost use Rattle.mat_model.specs.Books.{IsBook};
ghost use Rattle.mat_model.specs.Cleaning.{is_not_stale, is_stale};
ghost use Rattle.mat_model.specs.Rows.{covers, is_clear_of, overlaps_row, put_row, standing_row};
ghost use Rattle.mat_model.specs.Tickets.{answered_by, is_open, left_ticket};
ghost use Rattle.mat_model.specs.Work.{finish, is_declared, refuse, with_answers};
ghost use Rattle.model_laws.specs.TicketRules.{answered_below, answered_below_any, failure_of_make, failure_of_wipe, is_row_above, lost_below, top_of, with_answers_below};

/// In a book that keeps its rules, a row covers what an open ticket asks for exactly where it is at or above that.
pub fn row_above_open_ticket_covers()
    ensures { (next : ℕ) (book : Book) (ticket : Ticket) (row : Row) →
        IsBook next book → Contains book.tickets ticket → is_open ticket ≡ true → Contains book.rows row →
        covers ticket.asked row ≡ is_prefix row.path ticket.asked }
{}

/// A row that was made answers the open tickets that ask for a path at or below its own.
pub fn made_row_answers_below()
    ensures { (next number : ℕ) (given : Answer) (book : Book) (row : Row) →
        IsBook next book → Contains book.rows row →
        map (answered_by row number given) book.tickets ≡ map (answered_below row.path number given) book.tickets }
{}

/// A failure that is the answer for some rows of the book is that of the open tickets that ask for a path at or below one of them.
pub fn failed_rows_answer_below()
    ensures { (next number : ℕ) (given : Answer) (book : Book) (some : List Row) →
        IsBook next book → ((row : Row) → Contains some row → Contains book.rows row) →
        with_answers some number given book ≡ record book { tickets = map (answered_below_any some number given) book.tickets } }
{}

/// A failure that is the answer for the rows that overlap a path is that of the open tickets that ask for a path at or below the row that is at or
/// above it; where there is none, at or below that path.
pub fn overlapping_rows_answer_below()
    ensures { (next number : ℕ) (given : Answer) (book : Book) (path : List (List ℕ)) →
        IsBook next book →
        with_answers (filter (overlaps_row path) book.rows) number given book
        ≡ record book { tickets = map (answered_below (top_of book.rows path) number given) book.tickets } }
{}

/// Where no row is at or above a path, an open ticket asks for a path that overlaps it exactly where that is at or below it.
pub fn open_ticket_is_below_bare_path()
    ensures { (next : ℕ) (book : Book) (path : List (List ℕ)) (ticket : Ticket) →
        IsBook next book → Contains book.tickets ticket → is_open ticket ≡ true → list_any (is_row_above path) book.rows ≡ false →
        overlap ticket.asked path ≡ is_prefix path ticket.asked }
{}

/// Rows that are removed answer the open tickets that ask for a path at or below one of them.
pub fn removed_rows_answer_below()
    ensures { (next number : ℕ) (book : Book) (gone left : Row → Bool) →
        IsBook next book → ((row : Row) → left row ≡ not (gone row)) →
        map (left_ticket number (filter gone book.rows) (filter left book.rows)) book.tickets
        ≡ map (answered_below_any (filter gone book.rows) number answer.Undeclared) book.tickets }
{}

/// Where all rows that overlap a path are removed, the open tickets are answered that ask for a path at or below the row that is at or above it;
/// where there is none, at or below that path.
pub fn invalid_rows_answer_below()
    ensures { (next number : ℕ) (book : Book) (path : List (List ℕ)) →
        IsBook next book →
        map (left_ticket number (filter (overlaps_row path) book.rows) (filter (is_clear_of path) book.rows)) book.tickets
        ≡ map (answered_below (top_of book.rows path) number answer.Undeclared) book.tickets }
{}

/// Where a row comes in the place of those that overlap a path, the same tickets are answered but for those whose path the new row covers.
pub fn replaced_rows_answer_below()
    ensures { (next number : ℕ) (book : Book) (path : List (List ℕ)) (new : Row) →
        IsBook next book →
        map (left_ticket number (filter (overlaps_row path) book.rows) (put_row new (filter (is_clear_of path) book.rows))) book.tickets
        ≡ map (lost_below (top_of book.rows path) new number) book.tickets }
{}

/// A clean answers no ticket.
pub fn clean_answers_nobody()
    ensures { (next number cutoff : ℕ) (book : Book) →
        IsBook next book →
        map (left_ticket number (filter (is_stale cutoff book.holds) book.rows) (filter (is_not_stale cutoff book.holds) book.rows)) book.tickets
        ≡ book.tickets }
{}

/// The end of a make that made its row answers the open tickets that ask for a path at or below its own, with the row's stamp and sum.
pub fn made_make_answers_below()
    ensures { (next number : ℕ) (path : List (List ℕ)) (stamp : ℕ) (how : Recorded) (book : Book) (row : Row) →
        IsBook next book → find (is_declared path stamp) book.rows ≡ Some row →
        finish number (task.Make path stamp) outcome.Made how book ≡ record {
          reply = reply.Fresh how;
          book = record (with_answers_below path number (answer.Ready stamp row.sum) book) { rows = map (standing_row path) book.rows };
        } }
{}

/// The end of a make that failed answers them with its failure, and changes nothing else of the book.
pub fn failed_make_answers_below()
    ensures { (next number : ℕ) (path : List (List ℕ)) (stamp : ℕ) (out : Outcome) (how : Recorded) (given : Answer) (book : Book) (row : Row) →
        IsBook next book → find (is_declared path stamp) book.rows ≡ Some row → failure_of_make out ≡ Some given →
        finish number (task.Make path stamp) out how book
        ≡ record { reply = reply.Fresh how; book = with_answers_below path number given book } }
{}

/// The end of a wipe that failed answers the open tickets that ask for a path at or below the row that is at or above its own; where there is none, at
/// or below its own.
pub fn failed_wipe_answers_below()
    ensures { (next number : ℕ) (path : List (List ℕ)) (out : Outcome) (how : Recorded) (given : Answer) (book : Book) →
        IsBook next book → failure_of_wipe out ≡ Some given →
        finish number (task.Wipe path) out how book
        ≡ record { reply = reply.Fresh recorded.Nothing; book = with_answers_below (top_of book.rows path) number given book } }
{}

/// So does the begin of a wipe that was refused.
pub fn refused_wipe_answers_below()
    ensures { (next number : ℕ) (path : List (List ℕ)) (note : FaultNote) (book : Book) →
        IsBook next book →
        refuse number (task.Wipe path) note book
        ≡ record { reply = reply.Refused note; book = with_answers_below (top_of book.rows path) number (answer.Fault note) book } }
{}

/// The begin of the make of a row that was refused answers the open tickets that ask for a path at or below the row's.
pub fn refused_make_answers_below()
    ensures { (next number stamp : ℕ) (note : FaultNote) (book : Book) (row : Row) →
        IsBook next book → Contains book.rows row →
        refuse number (task.Make row.path stamp) note book
        ≡ record { reply = reply.Refused note; book = with_answers_below row.path number (answer.Fault note) book } }
{}
