ghost use Rattle.std.specs.Prelude.{◌≡◌, [], ◌∷◌, codes, false, true, None, Some, nat_le};
ghost use Rattle.mat_digest.specs.declared.digest.Digest.{Digest};
ghost use Rattle.mat_tree.specs.Trees.{file_sum, file_tree, greatest_file};
ghost use Rattle.mat_model.specs.declared.answers.Answer.TheVariants as answer;
ghost use Rattle.mat_model.specs.declared.entries.Task.TheVariants as task;
ghost use Rattle.mat_model.specs.Declarations.{new_row};
ghost use Rattle.model_examples.specs.FirstRuns.{new_daemon};
ghost use Rattle.model_examples.specs.CopyRuns.{copy_asked, copy_begun, copy_run, declared_anew_run, late_copy_asked, late_copy_begun, lent_cleaned, lent_returned, lent_run, old_source_returned, self_run, source_declared_anew, two_copies_begun, two_copies_run};
ghost use Rattle.mat_model.specs.History.{book_of, opened, point_of};
ghost use Rattle.mat_model.specs.Legal.{IsLegal, IsEach, IsRecorded};
ghost use Rattle.model_examples.specs.RoomRuns.{roomy};
ghost use Rattle.mat_model.specs.Room.{greatest_limits};
ghost use Rattle.model_examples.specs.Steps.{digest_a, digest_b, path_p, path_q, path_r};
ghost use Rattle.mat_model.specs.WorkState.{copied, first_task, lent_by, store};

/// Copies, as a legal history: `q` is a copy of `p`, and once `p` is made so is `q`. `r` is a copy of `p` too, but another
/// file is written at `p` before `r` is asked for: `r` is made all the same. A copy of `s`, where nothing is declared, has
/// no source.
pub fn copy_run_is_legal()
    ensures { IsLegal greatest_limits new_daemon copy_run }
{}

/// The make of a copy whose source stands reads the source's part of the disk.
pub fn standing_source_is_lent()
    ensures task { first_task (point_of new_daemon copy_asked).work (book_of new_daemon copy_asked)
        ≡ Some (task.Make path_q 2) }
    ensures jobs { (point_of new_daemon copy_begun).work.jobs
        ≡ record {
          number = 7;
          caller = 0;
          task = task.Make path_q 2;
          lent = Some (record { path = path_p; stamp = 1; tree = file_tree digest_a false });
        } ∷ [] }
{}

/// The make of a copy whose source was replaced reads no other part of the disk, and the debris of the source, which isn't
/// above the copy, doesn't keep it from beginning.
pub fn replaced_source_is_not_lent()
    ensures debris { (point_of new_daemon late_copy_asked).work.debris ≡ record { path = path_p; condemned = false } ∷ [] }
    ensures task { first_task (point_of new_daemon late_copy_asked).work (book_of new_daemon late_copy_asked)
        ≡ Some (task.Make path_r 9) }
    ensures jobs { (point_of new_daemon late_copy_begun).work.jobs
        ≡ record { number = 12; caller = 0; task = task.Make path_r 9; lent = None } ∷ [] }
{}

/// Each ticket is answered with the stamp of its own row, and all with the sum of the file that was copied.
pub fn copies_are_ready()
    ensures { (book_of new_daemon copy_run).tickets
        ≡ record {
          number = 3;
          command = 1;
          asked = path_p;
          answered = Some (record { at = 5; answer = answer.Ready 1 (file_sum digest_a false) });
        }
        ∷ record {
          number = 6;
          command = 1;
          asked = path_q;
          answered = Some (record { at = 8; answer = answer.Ready 2 (file_sum digest_a false) });
        }
        ∷ record {
          number = 11;
          command = 1;
          asked = path_r;
          answered = Some (record { at = 13; answer = answer.Ready 9 (file_sum digest_a false) });
        }
        ∷ [] }
{}

/// A source that is cleaned while it is read, as a legal history: the copy is made and answered all the same, and then the
/// source's part of the disk is wiped.
pub fn lent_run_is_legal()
    ensures { (digest : Digest) → nat_le digest.size greatest_file ≡ true → IsLegal greatest_limits new_daemon (lent_run digest) }
{}

/// While the source's part is read, its row is gone from the book and from what is stored, but it is no debris, and
/// nothing else begins.
pub fn lent_source_is_no_debris()
    ensures rows { (digest : Digest) →
        (book_of new_daemon (lent_cleaned digest)).rows
        ≡ record {
          path = path_q;
          tree = file_tree digest false;
          sum = file_sum digest false;
          stamp = 7;
          stands = false;
          last = 9;
        } ∷ [] }
    ensures kept { (digest : Digest) → (point_of new_daemon (lent_cleaned digest)).kept ≡ [] }
    ensures jobs { (digest : Digest) →
        (point_of new_daemon (lent_cleaned digest)).work.jobs
        ≡ record {
          number = 9;
          caller = 0;
          task = task.Make path_q 7;
          lent = Some (record { path = path_p; stamp = 1; tree = file_tree digest false });
        } ∷ [] }
    ensures debris { (digest : Digest) → (point_of new_daemon (lent_cleaned digest)).work.debris ≡ [] }
    ensures task { (digest : Digest) →
        first_task (point_of new_daemon (lent_cleaned digest)).work (book_of new_daemon (lent_cleaned digest)) ≡ None }
{}

/// The copy is ready at entry 11. With that the source's part comes back, is condemned debris, and its wipe comes first.
pub fn lent_source_is_wiped_later()
    ensures tickets { (digest : Digest) →
        (book_of new_daemon (lent_returned digest)).tickets
        ≡ record {
          number = 2;
          command = 1;
          asked = path_p;
          answered = Some (record { at = 4; answer = answer.Ready 1 (file_sum digest false) });
        }
        ∷ record {
          number = 8;
          command = 2;
          asked = path_q;
          answered = Some (record { at = 11; answer = answer.Ready 7 (file_sum digest false) });
        }
        ∷ [] }
    ensures debris { (digest : Digest) →
        (point_of new_daemon (lent_returned digest)).work.debris ≡ record { path = path_p; condemned = true } ∷ [] }
    ensures task { (digest : Digest) →
        first_task (point_of new_daemon (lent_returned digest)).work (book_of new_daemon (lent_returned digest))
        ≡ Some (task.Wipe path_p) }
{}

/// The wipe leaves no debris, and the copy stands.
pub fn copy_outlives_its_source()
    ensures rows { (digest : Digest) →
        (book_of new_daemon (lent_run digest)).rows
        ≡ record {
          path = path_q;
          tree = file_tree digest false;
          sum = file_sum digest false;
          stamp = 7;
          stands = true;
          last = 9;
        } ∷ [] }
    ensures debris { (digest : Digest) → (point_of new_daemon (lent_run digest)).work.debris ≡ [] }
    ensures task { (digest : Digest) →
        first_task (point_of new_daemon (lent_run digest)).work (book_of new_daemon (lent_run digest)) ≡ None }
{}

/// A source whose row is declared anew while it is read, as a legal history: the copy is made of the old file, and then the new one is made.
pub fn declared_anew_run_is_legal()
    ensures { IsLegal greatest_limits new_daemon declared_anew_run }
{}

/// As long as the old file is lent it is no debris, and the new one, though it is asked for, can't be made; the job keeps the tree that the source had.
pub fn lent_source_is_waited_for()
    ensures jobs { (point_of new_daemon source_declared_anew).work.jobs
        ≡ record {
          number = 7;
          caller = 0;
          task = task.Make path_q 2;
          lent = Some (record { path = path_p; stamp = 1; tree = file_tree digest_a false });
        } ∷ [] }
    ensures debris { (point_of new_daemon source_declared_anew).work.debris ≡ [] }
    ensures task { first_task (point_of new_daemon source_declared_anew).work (book_of new_daemon source_declared_anew) ≡ None }
{}

/// Once the copy is made, the old file is debris that nobody asked to remove, and the make of the new one comes first, which takes it along.
pub fn new_source_comes_first()
    ensures debris { (point_of new_daemon old_source_returned).work.debris ≡ record { path = path_p; condemned = false } ∷ [] }
    ensures task { first_task (point_of new_daemon old_source_returned).work (book_of new_daemon old_source_returned)
        ≡ Some (task.Make path_p 8) }
    ensures cleared { (point_of new_daemon declared_anew_run).work.debris ≡ [] }
    ensures tickets { (book_of new_daemon declared_anew_run).tickets
        ≡ record {
          number = 3;
          command = 1;
          asked = path_p;
          answered = Some (record { at = 5; answer = answer.Ready 1 (file_sum digest_a false) });
        }
        ∷ record {
          number = 6;
          command = 1;
          asked = path_q;
          answered = Some (record { at = 10; answer = answer.Ready 2 (file_sum digest_a false) });
        }
        ∷ record {
          number = 9;
          command = 1;
          asked = path_p;
          answered = Some (record { at = 12; answer = answer.Ready 8 (file_sum digest_b false) });
        }
        ∷ [] }
{}

/// Two copies of one source, as a legal history: the second one is made when the first one is.
pub fn two_copies_are_legal()
    ensures { (digest : Digest) → nat_le digest.size greatest_file ≡ true → IsLegal greatest_limits new_daemon (two_copies_run digest) }
{}

/// A source is lent to one job at a time, so that the other copy waits.
pub fn source_is_lent_once()
    ensures { (digest : Digest) →
        first_task (point_of new_daemon (two_copies_begun digest)).work (book_of new_daemon (two_copies_begun digest)) ≡ None }
{}

/// A file in a directory is copied as a file, a link in it is no source, though its path is covered, and a copy of a part
/// over the whole, as a legal history, takes the whole away.
pub fn inner_copy_is_legal()
    ensures { (digest : Digest) → nat_le digest.size greatest_file ≡ true → IsLegal greatest_limits new_daemon (self_run digest) }
{}

/// The copies have the tree of the file. The first one would read it from the directory's part of the disk, and so would
/// the second one, if that row were still there.
pub fn inner_file_is_copied()
    ensures rows { (digest : Digest) →
        (book_of new_daemon (self_run digest)).rows
        ≡ new_row 5 0 path_p (file_tree digest true) ∷ new_row 4 0 path_q (file_tree digest true) ∷ [] }
    ensures ways { (digest : Digest) →
        (point_of new_daemon (self_run digest)).work.ways
        ≡ record { stamp = 5; way = copied path_p (codes "x" ∷ []) 1 false }
        ∷ record { stamp = 4; way = copied path_p (codes "x" ∷ []) 1 false }
        ∷ record { stamp = 1; way = store }
        ∷ [] }
    ensures lent { (digest : Digest) → lent_by (copied path_p (codes "x" ∷ []) 1 false) (book_of new_daemon (self_run digest)).rows ≡ None }
{}
