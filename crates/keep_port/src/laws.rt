// What the calls of a state store do to its rows, path by path: each law is a public function without a body whose clause is the law.
ghost use Rattle.std.specs.Prelude.{◌≡◌, ℕ, true, false, List, Some, None, map, if◌then◌else◌};
ghost use Rattle.std.specs.List.{filter};
ghost use Rattle.std.specs.Option.{option_map};
ghost use Rattle.mat_io.specs.declared.answer.Did.{Did};
ghost use Rattle.mat_path.specs.Names.{same_name};
ghost use Rattle.keep_port.specs.Places.{is_removed, is_stored, is_touched, row_at, stands_at};
ghost use Rattle.keep_port.specs.Rows.{after_remove, after_store, ascend, is_elsewhere, put, touched};
ghost use Rattle.keep_port.specs.declared.row.RawRow.{RawRow};
ghost use Rattle.keep_port.specs.declared.row.Touch.{Touch};

/// A call that stores rows and touches others leaves each row that it doesn't name, whatever it answers.
pub fn store_leaves_others()
    ensures { (path : List ℕ) (rows : List RawRow) (touches : List Touch) (answer : Did) (old : List RawRow) →
        is_stored path rows ≡ false → is_touched path touches ≡ false → row_at path (after_store rows touches answer old) ≡ row_at path old }
{}

/// A call that removes rows leaves each row that it doesn't name, whatever it answers.
pub fn remove_leaves_others()
    ensures { (path : List ℕ) (paths : List (List (List ℕ))) (answer : Did) (old : List RawRow) →
        is_removed path paths ≡ false → row_at path (after_remove paths answer old) ≡ row_at path old }
{}

/// A call that fails or wants memory leaves all rows.
pub fn undone_calls_leave_all()
    ensures store_failed { (rows : List RawRow) (touches : List Touch) (old : List RawRow) → after_store rows touches Did.Failed old ≡ old }
    ensures store_wanted { (rows : List RawRow) (touches : List Touch) (old : List RawRow) → after_store rows touches Did.NoMemory old ≡ old }
    ensures remove_failed { (paths : List (List (List ℕ))) (old : List RawRow) → after_remove paths Did.Failed old ≡ old }
    ensures remove_wanted { (paths : List (List (List ℕ))) (old : List RawRow) → after_remove paths Did.NoMemory old ≡ old }
{}

/// Rows stay in strict order of the bytes of their paths through each call.
pub fn calls_keep_order()
    ensures store { (rows : List RawRow) (touches : List Touch) (answer : Did) (old : List RawRow) →
        ascend old ≡ true → ascend (after_store rows touches answer old) ≡ true }
    ensures remove { (paths : List (List (List ℕ))) (answer : Did) (old : List RawRow) →
        ascend old ≡ true → ascend (after_remove paths answer old) ≡ true }
{}

/// What stands at a path once one row is put, rows at a path are touched, or those at a path are removed.
pub fn steps_tell_each_row()
    ensures put { (path : List ℕ) (rows : List RawRow) (row : RawRow) →
        row_at path (put rows row) ≡ (if stands_at path row then Some row else row_at path rows) }
    ensures touched { (path named : List ℕ) (last : ℕ) (rows : List RawRow) →
        row_at path (map (touched named last) rows) ≡ option_map (touched named last) (row_at path rows) }
    ensures removed { (path gone : List ℕ) (rows : List RawRow) →
        row_at path (filter (is_elsewhere gone) rows) ≡ (if same_name gone path then None else row_at path rows) }
{}
