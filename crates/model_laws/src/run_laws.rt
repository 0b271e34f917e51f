ghost use Rattle.std.specs.Prelude.{◌≡◌, ◌⊎◌, ◌<◌, ℕ, List, Some, true, false};
ghost use Rattle.std.specs.List.{Contains};
ghost use Rattle.mat_model.specs.declared.answers.Answer.TheVariants as answer;
ghost use Rattle.mat_model.specs.declared.answers.Reply.TheVariants as reply;
ghost use Rattle.mat_model.specs.declared.book.Ticket.{Ticket};
ghost use Rattle.mat_model.specs.declared.entries.Entry.{Entry};
ghost use Rattle.mat_model.specs.declared.entries.Event.TheVariants as event;
ghost use Rattle.mat_model.specs.declared.opening.Opening.{Opening};
ghost use Rattle.mat_model.specs.declared.requests.Asked.TheVariants as asked;
ghost use Rattle.mat_model.specs.declared.requests.CleanMode.{CleanMode};
ghost use Rattle.mat_model.specs.History.{Point, after, after_all, book_of, is_store_fault, next_number, opened};
ghost use Rattle.mat_model.specs.Rows.{are_apart};
ghost use Rattle.model_laws.specs.Laws.{removes};
ghost use Rattle.model_laws.specs.RowRules.{IsNoStamp, served_at};
ghost use Rattle.model_laws.specs.RunRules.{EndsMake, IsCleaned, WasPreempted};

/// The end of a make whose stamp is no row's any more is answered that it is stale, and changes nothing of the book.
pub fn gone_make_changes_nothing()
    ensures { (point : Point) (entry : Entry) (path : List (List ℕ)) (stamp : ℕ) →
        EndsMake point entry path stamp → IsNoStamp point.book.rows stamp →
        served_at point entry ≡ record { reply = reply.Stale; book = point.book } }
{}

/// Once a stamp is no row's, the end of a make under it changes nothing of the book, however many entries come before.
pub fn gone_make_never_changes()
    ensures { (point : Point) (later : List Entry) (entry : Entry) (path : List (List ℕ)) (stamp : ℕ) →
        are_apart point.book.rows ≡ true → stamp < next_number point → IsNoStamp point.book.rows stamp →
        EndsMake (after_all point later) entry path stamp →
        served_at (after_all point later) entry ≡ record { reply = reply.Stale; book = (after_all point later).book } }
{}

/// A clean removes exactly the stale rows, and lists them: none that lies, is held or was used at the cutoff or later, and each of these stays as
/// it was.
pub fn clean_removes_stale()
    ensures { (point : Point) (entry : Entry) (cutoff : ℕ) (mode : CleanMode) →
        entry.event ≡ event.Asked (asked.Clean cutoff mode) → removes mode ≡ true → is_store_fault (served_at point entry).reply ≡ false →
        IsCleaned cutoff point.book (served_at point entry) }
{}

/// A dry clean, and one for which the state store failed, leaves all rows.
pub fn clean_leaves_rows()
    ensures { (point : Point) (entry : Entry) (cutoff : ℕ) (mode : CleanMode) →
        entry.event ≡ event.Asked (asked.Clean cutoff mode) →
        (removes mode ≡ false) ⊎ (is_store_fault (served_at point entry).reply ≡ true) → (after point entry).book.rows ≡ point.book.rows }
{}

/// A ticket is answered that another command preempted its own only by the entry whose number the answer gives: an enter of that command, which took
/// the place of the ticket's command and is live alone afterwards. From an opening on there is always such an entry.
pub fn preempted_by_whom_took_place()
    ensures { (opening : Opening) (history : List Entry) (ticket : Ticket) (number command : ℕ) →
        Contains (book_of opening history).tickets ticket →
        ticket.answered ≡ Some (record { at = number; answer = answer.Preempted command }) →
        WasPreempted (opened opening) history number command ticket.command }
{}

/// Behind any entries, such a ticket had that answer already, or one of the further entries is that enter.
pub fn preempted_later_by_whom_took_place()
    ensures { (point : Point) (later : List Entry) (ticket : Ticket) (number command : ℕ) →
        Contains (after_all point later).book.tickets ticket →
        ticket.answered ≡ Some (record { at = number; answer = answer.Preempted command }) →
        Contains point.book.tickets ticket ⊎ WasPreempted point later number command ticket.command }
{}
