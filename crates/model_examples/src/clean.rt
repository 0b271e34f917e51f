ghost use Rattle.mat_model.specs.Room.{greatest_limits};
ghost use Rattle.std.specs.Prelude.{◌≡◌, [], ◌∷◌, false, true, None, Some, nat_le};
ghost use Rattle.mat_digest.specs.declared.digest.Digest.{Digest};
ghost use Rattle.mat_tree.specs.Trees.{file_sum, file_tree, greatest_file};
ghost use Rattle.mat_model.specs.declared.entries.Task.TheVariants as task;
ghost use Rattle.model_examples.specs.FirstRuns.{new_daemon};
ghost use Rattle.model_examples.specs.CleanRuns.{cleaned_run, condemned_run, mixed_clean, mixed_daemon, mixed_run, spared_run, standing_run, stray_daemon, stray_run, stray_wiped_run, wiped_run};
ghost use Rattle.mat_model.specs.History.{book_of, point_of};
ghost use Rattle.mat_model.specs.Legal.{IsLegal};
ghost use Rattle.model_examples.specs.Steps.{path_p, path_q};
ghost use Rattle.mat_model.specs.WorkState.{first_task};

/// A clean, as a legal history: a file at `p` is made at the moment 5. A clean takes nothing while a command holds the
/// row, whatever the cutoff; once the command is gone, cutoffs 4 and 5 still take nothing, since the row was used at 5. A
/// dry clean with cutoff 6 lists the row with the bytes of its files, and a real one lists the same and takes it. Then the
/// part of the disk is wiped.
pub fn clean_is_legal()
    ensures { (digest : Digest) → nat_le digest.size greatest_file ≡ true → IsLegal greatest_limits new_daemon (wiped_run digest) }
{}

/// The cleans that spare the row, the dry one too, leave it as it was made, and stored with its last use.
pub fn spared_row_stays()
    ensures rows { (digest : Digest) →
        (book_of new_daemon (spared_run digest)).rows
        ≡ record {
          path = path_p;
          tree = file_tree digest false;
          sum = file_sum digest false;
          stamp = 1;
          stands = true;
          last = 5;
        } ∷ [] }
    ensures kept { (digest : Digest) →
        (point_of new_daemon (spared_run digest)).kept
        ≡ record { path = path_p; tree = file_tree digest false; last = 5; new = true } ∷ [] }
    ensures task { (digest : Digest) →
        first_task (point_of new_daemon (spared_run digest)).work (book_of new_daemon (spared_run digest)) ≡ None }
{}

/// The real clean leaves no row, stored or not, but condemned debris at its path, whose wipe comes first.
pub fn cleaned_row_is_condemned()
    ensures rows { (digest : Digest) → (book_of new_daemon (cleaned_run digest)).rows ≡ [] }
    ensures kept { (digest : Digest) → (point_of new_daemon (cleaned_run digest)).kept ≡ [] }
    ensures debris { (digest : Digest) →
        (point_of new_daemon (cleaned_run digest)).work.debris ≡ record { path = path_p; condemned = true } ∷ [] }
    ensures task { (digest : Digest) →
        first_task (point_of new_daemon (cleaned_run digest)).work (book_of new_daemon (cleaned_run digest))
        ≡ Some (task.Wipe path_p) }
{}

/// The wipe leaves no debris and nothing to do, and the clock of the book still shows 5.
pub fn wipe_ends_clean()
    ensures debris { (digest : Digest) → (point_of new_daemon (wiped_run digest)).work.debris ≡ [] }
    ensures jobs { (digest : Digest) → (point_of new_daemon (wiped_run digest)).work.jobs ≡ [] }
    ensures now { (digest : Digest) → (book_of new_daemon (wiped_run digest)).now ≡ 5 }
    ensures task { (digest : Digest) →
        first_task (point_of new_daemon (wiped_run digest)).work (book_of new_daemon (wiped_run digest)) ≡ None }
{}

/// Before a clean the row is held, so that its last use alone does not make it stale.
pub fn held_row_is_held()
    ensures { (digest : Digest) → (book_of new_daemon (standing_run digest)).holds ≡ record { command = 1; path = path_p } ∷ [] }
{}

/// A stray, as a legal history: a real clean doesn't list it, one of all does, a second one of all doesn't list it again,
/// and it is wiped.
pub fn stray_is_legal()
    ensures { IsLegal greatest_limits stray_daemon stray_wiped_run }
{}

/// A real clean leaves a stray alone, so that nothing is to be done.
pub fn stray_is_left_alone()
    ensures debris { (point_of stray_daemon stray_run).work.debris ≡ record { path = path_p; condemned = false } ∷ [] }
    ensures task { first_task (point_of stray_daemon stray_run).work (book_of stray_daemon stray_run) ≡ None }
{}

/// A clean of all condemns a stray, and its wipe comes first.
pub fn stray_is_condemned()
    ensures debris { (point_of stray_daemon condemned_run).work.debris ≡ record { path = path_p; condemned = true } ∷ [] }
    ensures task { first_task (point_of stray_daemon condemned_run).work (book_of stray_daemon condemned_run)
        ≡ Some (task.Wipe path_p) }
{}

/// Once the stray is wiped there is no debris.
pub fn stray_is_wiped()
    ensures { (point_of stray_daemon stray_wiped_run).work.debris ≡ [] }
{}

/// A clean of all that takes a row and finds a stray, as a legal history: the row's own part is no stray. Two wipes run
/// side by side, in path order, and the second one ends first.
pub fn mixed_clean_is_legal()
    ensures { (digest : Digest) → nat_le digest.size greatest_file ≡ true → IsLegal greatest_limits (mixed_daemon digest) (mixed_run digest) }
{}

/// Both the row's part and the stray are condemned, in path order, and in the end both are gone.
pub fn row_and_stray_are_condemned()
    ensures condemned { (digest : Digest) →
        (point_of (mixed_daemon digest) (mixed_clean digest)).work.debris
        ≡ record { path = path_p; condemned = true } ∷ record { path = path_q; condemned = true } ∷ [] }
    ensures wiped { (digest : Digest) → (point_of (mixed_daemon digest) (mixed_run digest)).work.debris ≡ [] }
    ensures kept { (digest : Digest) → (point_of (mixed_daemon digest) (mixed_run digest)).kept ≡ [] }
{}
