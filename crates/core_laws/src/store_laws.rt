ghost use Rattle.std.specs.Prelude.{◌≡◌, ◌<◌, ◌^◌, ℕ, Bool, List, [], ◌∷◌, ◌++◌, map, filter, true, false, not, Some, None, Option};
ghost use Rattle.std.specs.List.{Contains, list_any};
ghost use Rattle.std.specs.Option.{ForSome, option_map};
ghost use Rattle.mat_path.specs.Names.{path_of, same_names};
ghost use Rattle.mat_model.specs.declared.answers.Gone.{Gone};
ghost use Rattle.mat_model.specs.declared.answers.Recorded.TheVariants as recorded;
ghost use Rattle.mat_model.specs.declared.answers.Reply.TheVariants as reply;
ghost use Rattle.mat_model.specs.declared.book.Row.{Row};
ghost use Rattle.mat_model.specs.declared.entries.Entry.{Entry};
ghost use Rattle.mat_model.specs.declared.entries.Event.TheVariants as event;
ghost use Rattle.mat_model.specs.declared.entries.Outcome.{Outcome};
ghost use Rattle.mat_model.specs.declared.entries.Task.{Task};
ghost use Rattle.mat_model.specs.declared.entries.Task.TheVariants as task;
ghost use Rattle.mat_model.specs.declared.opening.Opening.{Opening};
ghost use Rattle.mat_model.specs.declared.requests.Asked.TheVariants as asked;
ghost use Rattle.mat_model.specs.declared.requests.CleanMode.{CleanMode};
ghost use Rattle.mat_model.specs.Cleaning.{gone_row};
ghost use Rattle.mat_model.specs.History.{Point, after, opened, refusal_note};
ghost use Rattle.mat_model.specs.Kept.{KeptRow, is_due, is_kept_of, is_listed, kept_row, overlaps_kept, put_kept, store_rows};
ghost use Rattle.mat_model.specs.Openings.{is_found, opening_rows};
ghost use Rattle.mat_model.specs.Rows.{are_apart};
ghost use Rattle.mat_model.specs.WorkState.{Job, path_of_task, running};
ghost use Rattle.model_laws.specs.KeptRules.{KeptAscend, path_of_kept};
ghost use Rattle.model_laws.specs.RowRules.{served_at};
ghost use Rattle.model_laws.specs.StoredRules.{IsStored};
ghost use Rattle.keep_port.specs.Rows.{ascend, put_all, remove_all, touch_all};
ghost use Rattle.keep_port.specs.declared.row.RawRow.{RawRow};
ghost use Rattle.row_bytes.specs.Rows.{IsRow};
ghost use Rattle.row_bytes.specs.declared.row.KeptTree.{KeptTree};
ghost use Rattle.core_laws.specs.Stored.{AreDropped, AreSplit, IsReadAmong, IsReadAs, IsReadFrom, IsReadable, IsStore, has_bytes, is_left, is_old, kept_read, leaves_kept, raw_of, touch_of, wants_bytes};

/// The kept rows determine the rows of the state store: two that have them have the same rows, in one order.
pub fn stores_are_alike()
    ensures { (identity : ℕ) (kept : List KeptRow) (rows others : List RawRow) → IsStore identity kept rows → IsStore identity kept others →
        rows ≡ others }
{}

/// The paths of the kept rows that a test finds, as a list, name exactly these among the kept rows, which ascend by path.
pub fn listed_paths_name_rows()
    ensures { (drops : KeptRow → Bool) (kept : List KeptRow) (one : KeptRow) → KeptAscend kept → Contains kept one →
        list_any (same_names one.path) (map path_of_kept (filter drops kept)) ≡ drops one }
{}

/// So they are what a removal of them may be given, where the state store has the kept rows; and where the test finds none, so is the empty list.
pub fn listed_paths_are_dropped()
    ensures some { (identity : ℕ) (drops : KeptRow → Bool) (kept : List KeptRow) (rows : List RawRow) → KeptAscend kept →
        IsStore identity kept rows → AreDropped drops kept (map path_of_kept (filter drops kept)) }
    ensures none { (drops : KeptRow → Bool) (kept : List KeptRow) → list_any drops kept ≡ false → AreDropped drops kept [] }
{}

/// The kept rows that a clean lists are those at the paths of the rows that it removes.
pub fn gone_rows_are_listed()
    ensures { (some : List Row) (one : KeptRow) → is_listed (map gone_row some) one ≡ is_kept_of some one }
{}

/// Where the state store tells its rows, and has some kept rows, it has others after a call that leads from the ones to the others.
pub fn told_store_changes()
    ensures { (identity : ℕ) (kept left : List KeptRow) (change : List RawRow → List RawRow) (told : Option (List RawRow)) →
        ((rows : List RawRow) → IsStore identity kept rows → IsStore identity left (change rows)) → ForSome told (IsStore identity kept) →
        ForSome (option_map change told) (IsStore identity left) }
{}

/// Once the rows at some paths are removed, the state store has the kept rows that are left, where the paths name exactly the others.
pub fn removal_leaves_store()
    ensures { (identity : ℕ) (drops : KeptRow → Bool) (kept : List KeptRow) (rows : List RawRow) (paths : List (List (List ℕ))) →
        AreDropped drops kept paths → IsStore identity kept rows → IsStore identity (filter (is_left drops) kept) (remove_all rows paths) }
{}

/// Once rows are put, it has these among the kept ones, each in the place of the one at its path.
pub fn puts_leave_store()
    ensures { (identity : ℕ) (some : List Row) (kept : List KeptRow) (rows : List RawRow) → KeptAscend kept →
        ((row : Row) → Contains some row → IsReadable (kept_row row)) → IsStore identity kept rows →
        IsStore identity (store_rows some kept) (put_all rows (map (raw_of identity) some)) }
{}

/// So it has the rows that are due, where the bytes of some of them are put, and others, whose bytes it has, only get another last use.
pub fn due_rows_are_stored()
    ensures { (identity : ℕ) (rows : List Row) (jobs : List Job) (kept : List KeptRow) (written changed : List Row) (old : List RawRow) →
        are_apart rows ≡ true → IsStored rows jobs kept → AreSplit kept (filter (is_due kept) rows) written changed →
        ((row : Row) → Contains written row → IsReadable (kept_row row)) → IsStore identity kept old →
        IsStore identity (store_rows (filter (is_due kept) rows) kept)
        (touch_all (put_all old (map (raw_of identity) written)) (map touch_of changed)) }
{}

/// Rows may be split by whether the state store has their bytes.
pub fn bytes_split_rows()
    ensures { (kept : List KeptRow) (some : List Row) → AreSplit kept some (filter (wants_bytes kept) some) (filter (has_bytes kept) some) }
{}

/// Rows that are told in order are those of some kept rows, where each is read as one of these, and each of these is read from one of them.
pub fn told_rows_are_store()
    ensures { (identity : ℕ) (kept : List KeptRow) (rows : List RawRow) → ascend rows ≡ true →
        ((raw : RawRow) → Contains rows raw → IsReadAmong identity kept raw) →
        ((one : KeptRow) → Contains kept one → IsReadFrom identity rows one) → IsStore identity kept rows }
{}

/// So they are where they are read one by one, each put into its place in path order: none is at first, and each further one is.
pub fn next_row_is_stored()
    ensures none { (identity : ℕ) → IsStore identity [] [] }
    ensures next { (identity : ℕ) (one : KeptRow) (kept : List KeptRow) (raw : RawRow) (rows : List RawRow) → ascend (rows ++ raw ∷ []) ≡ true →
        IsReadAs identity raw one → IsStore identity kept rows → IsStore identity (put_kept one kept) (rows ++ raw ∷ []) }
{}

/// Where the state store has the kept rows, each of its rows is read as one of them, and each of them from one of its rows.
pub fn stored_rows_are_read()
    ensures told { (identity : ℕ) (kept : List KeptRow) (rows : List RawRow) (raw : RawRow) → identity < 2 ^ 64 →
        IsStore identity kept rows → Contains rows raw → IsReadAmong identity kept raw }
    ensures kept { (identity : ℕ) (kept : List KeptRow) (rows : List RawRow) (one : KeptRow) → identity < 2 ^ 64 →
        IsStore identity kept rows → Contains kept one → IsReadFrom identity rows one }
{}

/// Its rows determine the kept rows, which ascend by path: no others are read from them.
pub fn stored_rows_are_kept()
    ensures { (identity : ℕ) (kept others : List KeptRow) (rows : List RawRow) → identity < 2 ^ 64 → KeptAscend kept → KeptAscend others →
        IsStore identity kept rows → IsStore identity others rows → kept ≡ others }
{}

/// A row that is told is read as a kept one, where its path is spelled so and its bytes are a row, with the daemon's identity if it has one.
pub fn row_is_read_as_kept()
    ensures { (identity : ℕ) (raw : RawRow) (path : List (List ℕ)) (row : KeptTree) → path_of raw.path ≡ Some path → IsRow raw.body row →
        ((found : ℕ) → row.identity ≡ Some found → found ≡ identity) → IsReadAs identity raw (kept_read path row raw) }
{}

/// The paths of the kept rows of the first version that aren't lost, as a list, name exactly these of those that aren't lost.
pub fn old_rows_are_named()
    ensures { (lost : List (List (List ℕ))) (kept : List KeptRow) (one : KeptRow) → KeptAscend kept → Contains kept one →
        is_found lost one ≡ true →
        list_any (same_names one.path) (map path_of_kept (filter is_old (filter (is_found lost) kept))) ≡ not one.new }
{}

/// An opening keeps, of some kept rows, those that aren't lost, as they are, where its rows are these, and its rows of the first version are those
/// whose bytes aren't new.
pub fn opening_keeps_found()
    ensures { (opening : Opening) (lost : List (List (List ℕ))) (kept : List KeptRow) → opening.rows ≡ opening_rows lost kept →
        ((one : KeptRow) → Contains kept one → is_found lost one ≡ true → list_any (same_names one.path) opening.version1 ≡ not one.new) →
        (opened opening).kept ≡ filter (is_found lost) kept }
{}

/// So the state store has its kept rows, once the lost ones are removed.
pub fn opening_has_store()
    ensures { (identity : ℕ) (opening : Opening) (kept : List KeptRow) (rows : List RawRow) → opening.rows ≡ opening_rows opening.lost kept →
        ((path : List (List ℕ)) → Contains opening.lost path → Contains (map path_of_kept kept) path) →
        ((one : KeptRow) → Contains kept one → is_found opening.lost one ≡ true → list_any (same_names one.path) opening.version1 ≡ not one.new) →
        IsStore identity kept rows → IsStore identity (opened opening).kept (remove_all rows opening.lost) }
{}

/// An entry whose reply says that the kept rows are as they were leaves them, and so the state store has them still.
pub fn quiet_entry_leaves_kept()
    ensures kept { (point : Point) (entry : Entry) → leaves_kept (served_at point entry).reply ≡ true → (after point entry).kept ≡ point.kept }
    ensures store { (identity : ℕ) (point : Point) (entry : Entry) (rows : List RawRow) → leaves_kept (served_at point entry).reply ≡ true →
        IsStore identity point.kept rows → IsStore identity (after point entry).kept rows }
{}

/// A begin that started leaves the state store with the kept rows, once those that overlap the task's path are removed.
pub fn begin_leaves_store()
    ensures { (identity : ℕ) (point : Point) (entry : Entry) (begun : Task) (rows : List RawRow) (paths : List (List (List ℕ))) →
        entry.event ≡ event.Begin begun → refusal_note (served_at point entry).reply ≡ None →
        AreDropped (overlaps_kept (path_of_task begun)) point.kept paths → IsStore identity point.kept rows →
        IsStore identity (after point entry).kept (remove_all rows paths) }
{}

/// So does an invalidate, once those that overlap its path are removed.
pub fn invalidate_leaves_store()
    ensures { (identity : ℕ) (point : Point) (entry : Entry) (command count : ℕ) (path : List (List ℕ)) (rows : List RawRow)
        (paths : List (List (List ℕ))) → entry.event ≡ event.Asked (asked.Invalidate command path) →
        (served_at point entry).reply ≡ reply.Invalid count → AreDropped (overlaps_kept path) point.kept paths →
        IsStore identity point.kept rows → IsStore identity (after point entry).kept (remove_all rows paths) }
{}

/// So does a clean, once those that it lists are removed.
pub fn clean_leaves_store()
    ensures { (identity : ℕ) (point : Point) (entry : Entry) (cutoff : ℕ) (mode : CleanMode) (gone : List Gone) (strays : List (List (List ℕ)))
        (rows : List RawRow) (paths : List (List (List ℕ))) → entry.event ≡ event.Asked (asked.Clean cutoff mode) →
        (served_at point entry).reply ≡ reply.Cleaned false gone strays → AreDropped (is_listed gone) point.kept paths →
        IsStore identity point.kept rows → IsStore identity (after point entry).kept (remove_all rows paths) }
{}

/// So does the end of a make whose row was recorded, once this row is put.
pub fn recorded_end_leaves_store()
    ensures { (identity : ℕ) (point : Point) (entry : Entry) (number : ℕ) (out : Outcome) (job : Job) (row : Row) (rows : List RawRow) →
        are_apart point.book.rows ≡ true → KeptAscend point.kept → entry.event ≡ event.Done number out →
        running number point.work ≡ Some job → job.task ≡ task.Make row.path row.stamp →
        (served_at point entry).reply ≡ reply.Fresh recorded.Kept → Contains point.book.rows row → IsReadable (kept_row row) →
        IsStore identity point.kept rows → IsStore identity (after point entry).kept (put_all rows (raw_of identity row ∷ [])) }
{}

/// So does a flush, once the bytes of some rows that are due are put, and the others, whose bytes the state store has, get their last use.
pub fn flush_leaves_store()
    ensures { (identity : ℕ) (point : Point) (entry : Entry) (count : ℕ) (written changed : List Row) (rows : List RawRow) →
        are_apart point.book.rows ≡ true → IsStored point.book.rows point.work.jobs point.kept → entry.event ≡ event.Asked asked.Flush →
        (served_at point entry).reply ≡ reply.Flushed count →
        AreSplit point.kept (filter (is_due point.kept) point.book.rows) written changed →
        ((row : Row) → Contains written row → IsReadable (kept_row row)) → IsStore identity point.kept rows →
        IsStore identity (after point entry).kept (touch_all (put_all rows (map (raw_of identity) written)) (map touch_of changed)) }
{}
