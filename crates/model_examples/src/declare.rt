ghost use Rattle.mat_model.specs.Room.{greatest_limits};
ghost use Rattle.std.specs.Prelude.{◌≡◌, [], ◌∷◌, false, true, None, Some, nat_le};
ghost use Rattle.mat_digest.specs.declared.digest.Digest.{Digest};
ghost use Rattle.mat_tree.specs.Sums.{sum_of};
ghost use Rattle.mat_tree.specs.Trees.{file_sum, file_tree, greatest_file};
ghost use Rattle.mat_model.specs.declared.answers.Answer.TheVariants as answer;
ghost use Rattle.mat_model.specs.declared.entries.Task.TheVariants as task;
ghost use Rattle.mat_model.specs.Declarations.{new_row};
ghost use Rattle.model_examples.specs.FirstRuns.{new_daemon};
ghost use Rattle.model_examples.specs.DeclareRuns.{above_asked, above_run, below_asked, below_run, below_stale, below_wiped, equal_run, executable_run, folder_asked, folder_path, folder_run, folder_tree, path_above, path_below, path_top, path_x, redeclared_run, remade_run, stale_run};
ghost use Rattle.mat_model.specs.History.{book_of, point_of};
ghost use Rattle.mat_model.specs.Legal.{IsLegal};
ghost use Rattle.model_examples.specs.Steps.{digest_a, digest_b, path_p};
ghost use Rattle.mat_model.specs.WorkState.{first_task};

/// A second declaration, as a legal history: a file is declared at `p`, asked for and made. The declaration of the same
/// file keeps stamp 1, and an ensure is ready at once. An executable file of the same bytes is another tree, and gets a
/// stamp of its own.
pub fn executable_run_is_legal()
    ensures { IsLegal greatest_limits new_daemon executable_run }
{}

/// The row of an equal tree goes on standing under its stamp, and nothing is to be done.
pub fn equal_tree_stands_on()
    ensures rows { (book_of new_daemon equal_run).rows
        ≡ record {
          path = path_p;
          tree = file_tree digest_a false;
          sum = file_sum digest_a false;
          stamp = 1;
          stands = true;
          last = 0;
        } ∷ [] }
    ensures task { first_task (point_of new_daemon equal_run).work (book_of new_daemon equal_run) ≡ None }
{}

/// The executable file's row doesn't stand, and the old file is debris that no clean asked to remove.
pub fn executable_file_replaces()
    ensures rows { (book_of new_daemon executable_run).rows ≡ new_row 7 0 path_p (file_tree digest_a true) ∷ [] }
    ensures debris { (point_of new_daemon executable_run).work.debris ≡ record { path = path_p; condemned = false } ∷ [] }
    ensures task { first_task (point_of new_daemon executable_run).work (book_of new_daemon executable_run) ≡ None }
{}

/// A directory with the file `x` at `out/d`, as a legal history: an ensure of `out/d/x` opens a ticket, `out/d/y` and
/// `out` are undeclared, and once the tree is made the ensure of `out/d/x` is ready with the stamp and the sum of the
/// directory.
pub fn folder_run_is_legal()
    ensures { (digest : Digest) → nat_le digest.size greatest_file ≡ true → IsLegal greatest_limits new_daemon (folder_run digest) }
{}

/// The ticket for a file in a directory has the whole directory made.
pub fn folder_is_made_whole()
    ensures { (digest : Digest) →
        first_task (point_of new_daemon (folder_asked digest)).work (book_of new_daemon (folder_asked digest))
        ≡ Some (task.Make folder_path 1) }
{}

/// The end of the make, entry 6, answers that ticket with the sum of the directory.
pub fn folder_answers_ticket()
    ensures { (digest : Digest) →
        (book_of new_daemon (folder_run digest)).tickets
        ≡ record {
          number = 2;
          command = 1;
          asked = path_x;
          answered = Some (record { at = 6; answer = answer.Ready 1 (sum_of (folder_tree digest)) });
        } ∷ [] }
{}

/// A redeclaration while its path is made, as a legal history: the end of the first make is stale, then the new file is
/// made, and its end counts.
pub fn remade_run_is_legal()
    ensures { IsLegal greatest_limits new_daemon remade_run }
{}

/// While the first make runs nothing else begins, and the ticket is open on the new row.
pub fn running_make_is_waited_for()
    ensures task { first_task (point_of new_daemon redeclared_run).work (book_of new_daemon redeclared_run) ≡ None }
    ensures rows { (book_of new_daemon redeclared_run).rows ≡ new_row 4 0 path_p (file_tree digest_b false) ∷ [] }
    ensures tickets { (book_of new_daemon redeclared_run).tickets
        ≡ record { number = 2; command = 1; asked = path_p; answered = None } ∷ [] }
{}

/// The stale end changes no row and answers no ticket. What it made is debris, and since that is at the new row's path, and
/// not above it, the make of the new row comes first.
pub fn stale_end_stands_nothing()
    ensures book { book_of new_daemon stale_run ≡ book_of new_daemon redeclared_run }
    ensures debris { (point_of new_daemon stale_run).work.debris ≡ record { path = path_p; condemned = false } ∷ [] }
    ensures task { first_task (point_of new_daemon stale_run).work (book_of new_daemon stale_run)
        ≡ Some (task.Make path_p 4) }
{}

/// The second make, whose end is entry 7, answers the ticket with the new stamp and the new file's sum, and the debris is
/// gone.
pub fn second_make_answers()
    ensures tickets { (book_of new_daemon remade_run).tickets
        ≡ record {
          number = 2;
          command = 1;
          asked = path_p;
          answered = Some (record { at = 7; answer = answer.Ready 4 (file_sum digest_b false) });
        } ∷ [] }
    ensures debris { (point_of new_daemon remade_run).work.debris ≡ [] }
    ensures task { first_task (point_of new_daemon remade_run).work (book_of new_daemon remade_run) ≡ None }
{}

/// A declaration below a path that is made, as a legal history: the make of `a/b` ends stale, what it left is wiped, and
/// then `a/b/c` is made.
pub fn below_run_is_legal()
    ensures { (digest other : Digest) →
        nat_le digest.size greatest_file ≡ true → nat_le other.size greatest_file ≡ true → IsLegal greatest_limits new_daemon (below_run digest other) }
{}

/// The declaration at `a/b/c`, entry 4, takes the row of `a/b` away and answers its ticket. A ticket for the new row is
/// open, but the make that runs above it keeps it from beginning.
pub fn make_above_is_waited_for()
    ensures rows { (digest other : Digest) →
        (book_of new_daemon (below_asked digest other)).rows ≡ new_row 4 0 path_below (file_tree other false) ∷ [] }
    ensures tickets { (digest other : Digest) →
        (book_of new_daemon (below_asked digest other)).tickets
        ≡ record {
          number = 2;
          command = 1;
          asked = path_above;
          answered = Some (record { at = 4; answer = answer.Undeclared });
        }
        ∷ record { number = 5; command = 1; asked = path_below; answered = None }
        ∷ [] }
    ensures task { (digest other : Digest) →
        first_task (point_of new_daemon (below_asked digest other)).work (book_of new_daemon (below_asked digest other))
        ≡ None }
{}

/// What the stale make left at `a/b` is debris. No clean asked for its removal, but it lies strictly above a row that is
/// asked for: its wipe comes first.
pub fn debris_above_is_wiped_first()
    ensures debris { (digest other : Digest) →
        (point_of new_daemon (below_stale digest other)).work.debris ≡ record { path = path_above; condemned = false } ∷ [] }
    ensures task { (digest other : Digest) →
        first_task (point_of new_daemon (below_stale digest other)).work (book_of new_daemon (below_stale digest other))
        ≡ Some (task.Wipe path_above) }
{}

/// Once it is wiped the make of `a/b/c` comes first.
pub fn row_below_comes_next()
    ensures { (digest other : Digest) →
        first_task (point_of new_daemon (below_wiped digest other)).work (book_of new_daemon (below_wiped digest other))
        ≡ Some (task.Make path_below 4) }
{}

/// The end of that make, entry 10, answers the second ticket, and the first one stays as it was answered.
pub fn row_below_is_ready()
    ensures tickets { (digest other : Digest) →
        (book_of new_daemon (below_run digest other)).tickets
        ≡ record {
          number = 2;
          command = 1;
          asked = path_above;
          answered = Some (record { at = 4; answer = answer.Undeclared });
        }
        ∷ record {
          number = 5;
          command = 1;
          asked = path_below;
          answered = Some (record { at = 10; answer = answer.Ready 4 (file_sum other false) });
        }
        ∷ [] }
    ensures debris { (digest other : Digest) → (point_of new_daemon (below_run digest other)).work.debris ≡ [] }
{}

/// A file over a row that stands below its path, as a legal history: the row at `a/b` is gone once `a` is a file, and `a` is made at once.
pub fn above_run_is_legal()
    ensures { IsLegal greatest_limits new_daemon above_run }
{}

/// What stands at `a/b` is debris then, which keeps no make above it from coming first: that takes it along.
pub fn debris_below_is_taken_along()
    ensures rows { (book_of new_daemon above_asked).rows ≡ new_row 5 0 path_top (file_tree digest_b false) ∷ [] }
    ensures debris { (point_of new_daemon above_asked).work.debris ≡ record { path = path_above; condemned = false } ∷ [] }
    ensures task { first_task (point_of new_daemon above_asked).work (book_of new_daemon above_asked) ≡ Some (task.Make path_top 5) }
    ensures cleared { (point_of new_daemon above_run).work.debris ≡ [] }
{}

/// Each ticket was answered with its own row's stamp and file.
pub fn both_files_were_ready()
    ensures { (book_of new_daemon above_run).tickets
        ≡ record {
          number = 2;
          command = 1;
          asked = path_above;
          answered = Some (record { at = 4; answer = answer.Ready 1 (file_sum digest_a false) });
        }
        ∷ record {
          number = 7;
          command = 1;
          asked = path_top;
          answered = Some (record { at = 9; answer = answer.Ready 5 (file_sum digest_b false) });
        }
        ∷ [] }
{}
