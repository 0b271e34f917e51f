ghost use Rattle.mat_model.specs.Room.{greatest_limits};
ghost use Rattle.std.specs.Prelude.{◌≡◌, [], ◌∷◌, ◌++◌, true, false, Some, nat_le};
ghost use Rattle.mat_digest.specs.declared.digest.Digest.{Digest};
ghost use Rattle.mat_tree.specs.Trees.{file_sum, file_tree, same_digest};
ghost use Rattle.mat_model.specs.declared.answers.Answer.TheVariants as answer;
ghost use Rattle.mat_model.specs.declared.answers.Reply.TheVariants as reply;
ghost use Rattle.mat_model.specs.declared.entries.Task.TheVariants as task;
ghost use Rattle.model_examples.specs.Steps.{digest_a};
ghost use Rattle.model_examples.specs.FirstRuns.{an_entry, asked_run, asks, deep_path, empty_book, enters, file_path, first_run, made_run, new_daemon, out_path, served_next, writes};
ghost use Rattle.mat_model.specs.History.{book_of, point_of};
ghost use Rattle.mat_model.specs.Legal.{FollowsFrom, IsLegal};
ghost use Rattle.mat_model.specs.Declarations.{new_row};
ghost use Rattle.mat_model.specs.WorkState.{first_task};

/// The first run is a legal history: command 1 enters for state 7 and is live, its write of `out/f` is declared under
/// stamp 1, its ensure of `out/f` opens ticket 2, the job that begins takes the make of `out/f` under stamp 1, its end
/// counts, a further ensure is ready with that stamp and sum, an ensure of `out` finds no row, and a write by command 9
/// is refused.
pub fn first_run_is_legal()
    ensures follows { (digest : Digest) → FollowsFrom new_daemon (first_run digest) }
    ensures legal { IsLegal greatest_limits new_daemon (first_run digest_a) }
{}

/// Once `out/f` is asked for, its make comes first.
pub fn first_run_task()
    ensures { (digest : Digest) →
        first_task (point_of new_daemon (asked_run digest)).work (book_of new_daemon (asked_run digest))
        ≡ Some (task.Make file_path 1) }
{}

/// The end of the make, entry 4, answers ticket 2 with the stamp and the sum of the file.
pub fn first_run_tickets()
    ensures { (digest : Digest) →
        (book_of new_daemon (made_run digest)).tickets
        ≡ record {
          number = 2;
          command = 1;
          asked = file_path;
          answered = Some (record { at = 4; answer = answer.Ready 1 (file_sum digest false) });
        } ∷ [] }
{}

/// The end of the make has the row stand, and changes nothing else of it.
pub fn first_run_rows()
    ensures { (digest : Digest) →
        (book_of new_daemon (made_run digest)).rows
        ≡ record {
          path = file_path;
          tree = file_tree digest false;
          sum = file_sum digest false;
          stamp = 1;
          stands = true;
          last = 0;
        } ∷ [] }
{}

/// A second write of the same file keeps its stamp, and its row stands as before.
pub fn same_file_is_kept()
    ensures reply { (digest : Digest) → (served_next (made_run digest) (writes 1 file_path digest)).reply ≡ reply.Kept 1 }
    ensures rows { (digest : Digest) →
        (served_next (made_run digest) (writes 1 file_path digest)).book.rows ≡ (book_of new_daemon (made_run digest)).rows }
{}

/// A write of another file at `out/f` while it is asked for declares a new row in the place of the old one. The new row
/// covers `out/f` too, so the ticket on it stays open.
pub fn other_file_replaces()
    ensures reply { (digest other : Digest) → same_digest digest other ≡ false →
        (served_next (asked_run digest) (writes 1 file_path other)).reply ≡ reply.Declared 3 }
    ensures rows { (digest other : Digest) → same_digest digest other ≡ false →
        (served_next (asked_run digest) (writes 1 file_path other)).book.rows
        ≡ new_row 3 0 file_path (file_tree other false) ∷ [] }
    ensures tickets { (digest other : Digest) → same_digest digest other ≡ false →
        (served_next (asked_run digest) (writes 1 file_path other)).book.tickets
        ≡ (book_of new_daemon (asked_run digest)).tickets }
{}

/// A write of a file at `out` while `out/f` is asked for takes away the row that the ticket is on, and the new row has
/// no node for it: the ticket is answered that nothing is declared.
pub fn file_above_replaces()
    ensures reply { (digest other : Digest) → (served_next (asked_run digest) (writes 1 out_path other)).reply ≡ reply.Declared 3 }
    ensures rows { (digest other : Digest) →
        (served_next (asked_run digest) (writes 1 out_path other)).book.rows
        ≡ new_row 3 0 out_path (file_tree other false) ∷ [] }
    ensures tickets { (digest other : Digest) →
        (served_next (asked_run digest) (writes 1 out_path other)).book.tickets
        ≡ record {
          number = 2;
          command = 1;
          asked = file_path;
          answered = Some (record { at = 3; answer = answer.Undeclared });
        } ∷ [] }
{}

/// A write of a file at `out/f/x` while `out/f` is asked for takes the row of `out/f` away too, and so does its ticket end.
pub fn file_below_replaces()
    ensures { (digest other : Digest) →
        (served_next (asked_run digest) (writes 1 deep_path other)).book.tickets
        ≡ record {
          number = 2;
          command = 1;
          asked = file_path;
          answered = Some (record { at = 3; answer = answer.Undeclared });
        } ∷ [] }
{}

/// A write of another file at `out/f` once it is made: the new row doesn't stand, so that an ensure opens a ticket.
pub fn replaced_is_asked()
    ensures { (digest other : Digest) → same_digest digest other ≡ false →
        (served_next
        (made_run digest ++ an_entry 1 3 (writes 1 file_path other) (reply.Declared 5) ∷ [])
        (asks 1 file_path)).reply
        ≡ reply.Asked 6 }
{}

/// While command 1 is live on state 7, a command for the same state is live at once, one for another state waits, and
/// command 1 itself is known.
pub fn other_state_waits()
    ensures same { (digest : Digest) → (served_next (first_run digest) (enters 2 7)).reply ≡ reply.Entered }
    ensures other { (digest : Digest) → (served_next (first_run digest) (enters 2 8)).reply ≡ reply.Queued 1 }
    ensures again { (digest : Digest) → (served_next (first_run digest) (enters 1 8)).reply ≡ reply.Known }
{}
