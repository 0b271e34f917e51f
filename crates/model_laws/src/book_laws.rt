ghost use Rattle.mat_model.specs.declared.opening.Opening.{Opening};
ghost use Rattle.mat_model.specs.Openings.{IsOpening};
ghost use Rattle.mat_model.specs.Gate.{is_nobody};
ghost use Rattle.std.specs.Prelude.{◌≡◌, ◌+◌, ◌≤◌, ℕ, List, [], ◌∷◌, length, count_by, true, false};
ghost use Rattle.std.specs.List.{All, Contains};
ghost use Rattle.std.specs.Option.{is_some};
ghost use Rattle.mat_model.specs.declared.answers.FaultNote.{FaultNote};
ghost use Rattle.mat_model.specs.declared.answers.Recorded.{Recorded};
ghost use Rattle.mat_model.specs.declared.answers.Reply.TheVariants as reply;
ghost use Rattle.mat_model.specs.declared.book.Book.{Book};
ghost use Rattle.mat_model.specs.declared.book.Ticket.{Ticket};
ghost use Rattle.mat_model.specs.declared.book.Waiter.{Waiter};
ghost use Rattle.mat_model.specs.declared.entries.Entry.{Entry};
ghost use Rattle.mat_model.specs.declared.entries.Outcome.{Outcome};
ghost use Rattle.mat_model.specs.declared.entries.Task.{Task};
ghost use Rattle.mat_model.specs.declared.limits.Limits.{Limits};
ghost use Rattle.mat_model.specs.declared.requests.Asked.{Asked};
ghost use Rattle.mat_model.specs.Books.{IsAwaitedOnce, IsBook, IsIdle, IsSummed, WaitsRightly};
ghost use Rattle.mat_model.specs.History.{Point, after_all, book_of, next_number, point_of};
ghost use Rattle.mat_model.specs.Legal.{IsEach};
ghost use Rattle.mat_model.specs.Requests.{RequestContext, is_open_of, leave, serve};
ghost use Rattle.mat_model.specs.Room.{HasRoom};
ghost use Rattle.mat_model.specs.Rows.{are_apart};
ghost use Rattle.mat_model.specs.Tickets.{is_open};
ghost use Rattle.mat_model.specs.Work.{finish, refuse};
ghost use Rattle.mat_model.specs.WorkState.{WorkState, first_task};

/// A request keeps the rules of a book, whoever sends it, and whatever it is answered.
pub fn serve_keeps_rules()
    ensures { (number moment : ℕ) (context : RequestContext) (request : Asked) (book : Book) →
        IsBook number book → IsBook (number + 1) (serve number moment context request book).book }
{}

/// The refusal of a begin keeps the rules of a book.
pub fn refuse_keeps_rules()
    ensures { (number : ℕ) (begun : Task) (note : FaultNote) (book : Book) →
        IsBook number book → IsBook (number + 1) (refuse number begun note book).book }
{}

/// The end of a job keeps the rules of a book.
pub fn finish_keeps_rules()
    ensures { (number : ℕ) (task : Task) (out : Outcome) (how : Recorded) (book : Book) →
        IsBook number book → IsBook (number + 1) (finish number task out how book).book }
{}

/// Behind any entries, further ones keep the rules of a book.
pub fn history_keeps_rules()
    ensures { (point : Point) (later : List Entry) →
        IsBook (next_number point) point.book →
        IsBook (next_number (after_all point later)) (after_all point later).book }
{}

/// From an opening that is right, every history leads to a book that keeps the rules.
pub fn opening_keeps_rules()
    ensures { (opening : Opening) (history : List Entry) →
        IsOpening opening →
        IsBook (next_number (point_of opening history)) (book_of opening history) }
{}

/// An idle book keeps all rules where its rows keep theirs.
pub fn idle_keeps_rules()
    ensures { (next : ℕ) (book : Book) → IsIdle book → are_apart book.rows ≡ true → All IsSummed book.rows → IsBook next book }
{}

/// Where there was room for each entry, at most 64 commands wait.
pub fn room_keeps_queue()
    ensures { (limits : Limits) (point : Point) (later : List Entry) →
        length point.book.waiting ≤ 64 → IsEach (HasRoom limits) point later → length (after_all point later).book.waiting ≤ 64 }
{}

/// Exactly one row covers what an open ticket asks for, and it doesn't stand.
pub fn open_ticket_waits()
    ensures { (next : ℕ) (book : Book) (ticket : Ticket) →
        IsBook next book → Contains book.tickets ticket → is_open ticket ≡ true → IsAwaitedOnce book.rows ticket.asked }
{}

/// The command of an open ticket can't leave: it is answered how many of its tickets are open, and the book stays as it is.
pub fn asker_stays()
    ensures { (next : ℕ) (book : Book) (ticket : Ticket) →
        IsBook next book → Contains book.tickets ticket → is_open ticket ≡ true →
        leave ticket.command book ≡ record { reply = reply.Busy (count_by (is_open_of ticket.command) book.tickets); book = book } }
{}

/// An open ticket is never stuck: where no job runs, a task comes first.
pub fn open_ticket_gives_work()
    ensures { (next : ℕ) (work : WorkState) (book : Book) (ticket : Ticket) →
        IsBook next book → work.jobs ≡ [] → Contains book.tickets ticket → is_open ticket ≡ true →
        is_some (first_task work book) ≡ true }
{}

/// Who is at the front of the queue waits for a reason: 64 commands are live, or those who are have another state.
pub fn front_waits_rightly()
    ensures { (next : ℕ) (book : Book) (waiter : Waiter) (others : List Waiter) →
        IsBook next book → book.waiting ≡ waiter ∷ others → WaitsRightly book waiter }
{}

/// Where somebody waits, somebody is live.
pub fn somebody_is_live()
    ensures { (next : ℕ) (book : Book) (waiter : Waiter) (others : List Waiter) →
        IsBook next book → book.waiting ≡ waiter ∷ others → is_nobody book.live ≡ false }
{}
