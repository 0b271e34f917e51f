ghost use Rattle.mat_model.specs.Room.{greatest_limits};
ghost use Rattle.std.specs.Prelude.{◌≡◌, [], ◌∷◌, false, true, None, Some, nat_le};
ghost use Rattle.mat_digest.specs.declared.digest.Digest.{Digest};
ghost use Rattle.mat_tree.specs.Trees.{file_sum, file_tree, greatest_file};
ghost use Rattle.mat_model.specs.declared.answers.Answer.TheVariants as answer;
ghost use Rattle.mat_model.specs.declared.entries.Task.TheVariants as task;
ghost use Rattle.mat_model.specs.Declarations.{new_row};
ghost use Rattle.model_examples.specs.FirstRuns.{new_daemon};
ghost use Rattle.model_examples.specs.FailureRuns.{failure_run, found_run, missing_run, path_px, unwiped_run, dirty_run};
ghost use Rattle.mat_model.specs.History.{book_of, opened, point_of};
ghost use Rattle.mat_model.specs.Legal.{IsLegal, IsEach, IsRecorded};
ghost use Rattle.model_examples.specs.Steps.{disk_note, path_p};
ghost use Rattle.mat_model.specs.WorkState.{first_task};

/// A file that the store lacks and then has, as a legal history: the first ensure is answered that it is missing, and the
/// second one is ready.
pub fn found_run_is_legal()
    ensures { (digest : Digest) → nat_le digest.size greatest_file ≡ true → IsLegal greatest_limits new_daemon (found_run digest) }
{}

/// A make that fails leaves its row declared, and its ticket, answered at entry 4, is open no more: nothing is to be done.
/// What it may have left is the row's own.
pub fn missing_file_is_told()
    ensures rows { (digest : Digest) →
        (book_of new_daemon (missing_run digest)).rows ≡ new_row 1 0 path_p (file_tree digest false) ∷ [] }
    ensures tickets { (digest : Digest) →
        (book_of new_daemon (missing_run digest)).tickets
        ≡ record {
          number = 2;
          command = 1;
          asked = path_p;
          answered = Some (record { at = 4; answer = answer.Missing digest });
        } ∷ [] }
    ensures dirty { (digest : Digest) → (point_of new_daemon (missing_run digest)).work.dirty ≡ path_p ∷ [] }
    ensures debris { (digest : Digest) → (point_of new_daemon (missing_run digest)).work.debris ≡ [] }
    ensures task { (digest : Digest) →
        first_task (point_of new_daemon (missing_run digest)).work (book_of new_daemon (missing_run digest)) ≡ None }
{}

/// The second make answers the second ticket, and its row is dirty no more.
pub fn found_file_is_ready()
    ensures tickets { (digest : Digest) →
        (book_of new_daemon (found_run digest)).tickets
        ≡ record {
          number = 2;
          command = 1;
          asked = path_p;
          answered = Some (record { at = 4; answer = answer.Missing digest });
        }
        ∷ record {
          number = 5;
          command = 1;
          asked = path_p;
          answered = Some (record { at = 7; answer = answer.Ready 1 (file_sum digest false) });
        }
        ∷ [] }
    ensures dirty { (digest : Digest) → (point_of new_daemon (found_run digest)).work.dirty ≡ [] }
{}

/// A removed row and a wipe that fails, as a legal history: what the failed make may have left at `p` is wiped before
/// `p/x` is made. The disk fails at that, the ensure of `p/x` is answered so, and the next one is ready.
pub fn failure_run_is_legal()
    ensures { (digest other : Digest) →
        nat_le digest.size greatest_file ≡ true → nat_le other.size greatest_file ≡ true → IsLegal greatest_limits new_daemon (failure_run digest other) }
{}

/// A removed row whose make failed leaves debris, though it never stood. Its wipe comes first, since it lies above a row
/// that is asked for.
pub fn dirty_row_leaves_debris()
    ensures debris { (digest other : Digest) →
        (point_of new_daemon (dirty_run digest other)).work.debris ≡ record { path = path_p; condemned = false } ∷ [] }
    ensures dirty { (digest other : Digest) → (point_of new_daemon (dirty_run digest other)).work.dirty ≡ [] }
    ensures task { (digest other : Digest) →
        first_task (point_of new_daemon (dirty_run digest other)).work (book_of new_daemon (dirty_run digest other))
        ≡ Some (task.Wipe path_p) }
{}

/// The fault of the wipe, entry 9, is the answer to the ticket of the row that its path overlaps. The debris stays, and
/// with no open ticket below it nothing is to be done.
pub fn failed_wipe_is_told()
    ensures tickets { (digest other : Digest) →
        (book_of new_daemon (unwiped_run digest other)).tickets
        ≡ record {
          number = 2;
          command = 1;
          asked = path_p;
          answered = Some (record { at = 4; answer = answer.Missing digest });
        }
        ∷ record {
          number = 7;
          command = 1;
          asked = path_px;
          answered = Some (record { at = 9; answer = answer.Fault (disk_note 0 1) });
        }
        ∷ [] }
    ensures debris { (digest other : Digest) →
        (point_of new_daemon (unwiped_run digest other)).work.debris ≡ record { path = path_p; condemned = false } ∷ [] }
    ensures task { (digest other : Digest) →
        first_task (point_of new_daemon (unwiped_run digest other)).work (book_of new_daemon (unwiped_run digest other))
        ≡ None }
{}

/// In the end the file at `p/x` stands, and there is no debris.
pub fn second_wipe_clears()
    ensures rows { (digest other : Digest) →
        (book_of new_daemon (failure_run digest other)).rows
        ≡ record (new_row 6 0 path_px (file_tree other false)) { stands = true } ∷ [] }
    ensures debris { (digest other : Digest) → (point_of new_daemon (failure_run digest other)).work.debris ≡ [] }
{}
