ghost use Rattle.mat_model.specs.Room.{greatest_limits};
ghost use Rattle.std.specs.Prelude.{◌≡◌, [], ◌∷◌, false, true, None, Some};
ghost use Rattle.mat_tree.specs.Trees.{file_sum, file_tree};
ghost use Rattle.mat_model.specs.declared.answers.Answer.TheVariants as answer;
ghost use Rattle.mat_model.specs.declared.answers.Reply.TheVariants as reply;
ghost use Rattle.mat_model.specs.declared.entries.Task.TheVariants as task;
ghost use Rattle.mat_model.specs.Declarations.{new_row};
ghost use Rattle.model_examples.specs.StoreRuns.{flushed_run, not_kept_run, refused_run, store_run, stored_daemon, unremoved_run};
ghost use Rattle.mat_model.specs.History.{answer, book_of, opened, point_of};
ghost use Rattle.mat_model.specs.Legal.{IsLegal, IsEach, IsNoteApart, IsRecorded};
ghost use Rattle.model_examples.specs.Steps.{digest_a, digest_b, path_p, removes, store_note};
ghost use Rattle.mat_model.specs.WorkState.{first_task};

/// A state store that fails, as a legal history: a daemon begins with a row at `p`, and another file is written there. Its
/// make can't begin as long as the store fails to remove the old row, and counts though the store fails to take the new
/// one. A flush fails, the next one stores one row and the one behind it none. A removal fails, is refused to a command
/// that isn't live, and takes the row in the end.
pub fn store_run_is_legal()
    ensures { IsLegal greatest_limits stored_daemon store_run }
{}

/// Where the begin of a make is refused, entry 4, the note is the answer to the row's tickets, the row and the stored row
/// stay, and nothing is to be done.
pub fn refused_make_answers()
    ensures rows { (book_of stored_daemon refused_run).rows ≡ new_row 2 0 path_p (file_tree digest_b false) ∷ [] }
    ensures tickets { (book_of stored_daemon refused_run).tickets
        ≡ record {
          number = 3;
          command = 1;
          asked = path_p;
          answered = Some (record { at = 4; answer = answer.Fault (store_note 0 1) });
        } ∷ [] }
    ensures kept { (point_of stored_daemon refused_run).kept
        ≡ record { path = path_p; tree = file_tree digest_a false; last = 0; new = true } ∷ [] }
    ensures jobs { (point_of stored_daemon refused_run).work.jobs ≡ [] }
    ensures debris { (point_of stored_daemon refused_run).work.debris ≡ record { path = path_p; condemned = false } ∷ [] }
    ensures task { first_task (point_of stored_daemon refused_run).work (book_of stored_daemon refused_run) ≡ None }
{}

/// A make whose row isn't stored still has it stand and answers its ticket, and the old row is no longer stored.
pub fn row_stands_unstored()
    ensures rows { (book_of stored_daemon not_kept_run).rows
        ≡ record (new_row 2 0 path_p (file_tree digest_b false)) { stands = true } ∷ [] }
    ensures tickets { (book_of stored_daemon not_kept_run).tickets
        ≡ record {
          number = 3;
          command = 1;
          asked = path_p;
          answered = Some (record { at = 4; answer = answer.Fault (store_note 0 1) });
        }
        ∷ record {
          number = 5;
          command = 1;
          asked = path_p;
          answered = Some (record { at = 7; answer = answer.Ready 2 (file_sum digest_b false) });
        }
        ∷ [] }
    ensures kept { (point_of stored_daemon not_kept_run).kept ≡ [] }
{}

/// A flush stores the row.
pub fn flush_stores_row()
    ensures { (point_of stored_daemon flushed_run).kept
        ≡ record { path = path_p; tree = file_tree digest_b false; last = 0; new = true } ∷ [] }
{}

/// A removal that fails leaves the book as it was, and what is stored.
pub fn failed_removal_leaves_book()
    ensures book { book_of stored_daemon unremoved_run ≡ book_of stored_daemon flushed_run }
    ensures kept { (point_of stored_daemon unremoved_run).kept ≡ (point_of stored_daemon flushed_run).kept }
{}

/// A command that isn't live is told so, and never that the store failed.
pub fn refusal_comes_before_fault()
    ensures { (answer (point_of stored_daemon unremoved_run) 0 (removes 9 path_p) (reply.Fault (store_note 4 5))).reply
        ≡ reply.NotLive }
{}

/// The removal leaves no row, stored or not, and the file is debris.
pub fn removal_takes_both()
    ensures rows { (book_of stored_daemon store_run).rows ≡ [] }
    ensures kept { (point_of stored_daemon store_run).kept ≡ [] }
    ensures debris { (point_of stored_daemon store_run).work.debris ≡ record { path = path_p; condemned = false } ∷ [] }
{}
