//! Laws that tie marks to the stored rows of the model.
ghost use Rattle.std.specs.Prelude.{◌≡◌, ℕ, List, filter, map};
ghost use Rattle.mat_model.specs.Kept.{KeptRow, is_kept_clear, is_unlisted, put_kept};
ghost use Rattle.mat_model.specs.declared.answers.Gone.{Gone};
ghost use Rattle.model_laws.specs.KeptRules.{KeptAscend};
ghost use Rattle.kept_book.specs.declared.mark.Mark.{Mark};
ghost use Rattle.kept_book.specs.Marks.{gone_path, is_clear_mark, is_mark_unlisted, mark_of, overlaps_mark, path_of_mark, put_mark};

/// The marks of the rows that don't overlap a path are those of all rows that don't overlap it. It does nothing.
pub fn clear_marks_are_in_step()
    ensures { (path : List (List ℕ)) (kept : List KeptRow) → map mark_of (filter (is_kept_clear path) kept) ≡ filter (is_clear_mark path) (map mark_of kept) }
{}

/// The marks of the rows that a clean doesn't list are those of all rows at none of the paths that it lists. It does nothing.
pub fn unlisted_marks_are_in_step()
    ensures { (gone : List Gone) (kept : List KeptRow) → map mark_of (filter (is_unlisted gone) kept) ≡ filter (is_mark_unlisted (map gone_path gone)) (map mark_of kept) }
{}

/// Where the marks at the paths of the marks that overlap a path go, as `remove_all` takes what `overlapping` listed, those that don't overlap it are left. It does
/// nothing.
pub fn clear_marks_are_left()
    ensures { (path : List (List ℕ)) (marks : List Mark) → filter (is_mark_unlisted (map path_of_mark (filter (overlaps_mark path) marks))) marks ≡ filter (is_clear_mark path) marks }
{}

/// The marks of the rows, one of them put in its place in path order, are those of the rows with the mark of that one. It does nothing.
pub fn put_marks_are_in_step()
    ensures { (one : KeptRow) (kept : List KeptRow) → KeptAscend kept → map mark_of (put_kept one kept) ≡ put_mark (mark_of one) (map mark_of kept) }
{}
