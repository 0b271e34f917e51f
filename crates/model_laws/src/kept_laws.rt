ghost use Rattle.std.specs.Prelude.{◌≡◌, ◌⊎◌, List, true};
ghost use Rattle.std.specs.List.{Contains};
ghost use Rattle.mat_model.specs.declared.entries.Entry.{Entry};
ghost use Rattle.mat_model.specs.declared.opening.Opening.{Opening};
ghost use Rattle.mat_model.specs.History.{Point, after_all, opened, point_of};
ghost use Rattle.mat_model.specs.Kept.{KeptRow};
ghost use Rattle.mat_model.specs.Legal.{IsEach, IsRecorded, IsReplied};
ghost use Rattle.mat_model.specs.Openings.{IsOpening};
ghost use Rattle.model_laws.specs.RowRules.{served_at};
ghost use Rattle.model_laws.specs.KeptRules.{IsRecordedBy, KeptAscend, LeavesAlone, StaysKept, WasOpened, WasRecorded};

/// Kept rows that ascend strictly by path do so behind any entries.
pub fn history_keeps_kept_order()
    ensures { (point : Point) (later : List Entry) → KeptAscend point.kept → KeptAscend (after_all point later).kept }
{}

/// From an opening that is right, the kept rows ascend strictly by path at each point of a history.
pub fn opening_keeps_kept_order()
    ensures { (opening : Opening) (history : List Entry) → IsOpening opening → KeptAscend (point_of opening history).kept }
{}

/// A row that is kept at a point of a history, from an opening that is right, is one of the opening or was recorded by an entry, with that path and
/// tree; and no entry since has removed it, has begun a job at a path that overlaps its own, or has recorded a newer one at its path.
pub fn kept_row_was_recorded()
    ensures { (opening : Opening) (history : List Entry) (kept : KeptRow) →
        IsOpening opening → Contains (point_of opening history).kept kept →
        WasOpened opening history kept ⊎ WasRecorded (opened opening) history kept }
{}

/// Behind any entries, it was kept already or one of the further entries recorded it, and none since touched its path so.
pub fn kept_row_was_recorded_later()
    ensures { (point : Point) (later : List Entry) (kept : KeptRow) →
        KeptAscend point.kept → Contains (after_all point later).kept kept →
        StaysKept point later kept ⊎ WasRecorded point later kept }
{}

/// A row that is kept stays kept, as it is, behind entries that leave it alone.
pub fn kept_row_stays()
    ensures { (point : Point) (later : List Entry) (kept : KeptRow) →
        Contains point.kept kept → IsEach (LeavesAlone kept.path) point later → Contains (after_all point later).kept kept }
{}

/// Where what counts is recorded exactly where a row was made, a row that is recorded stands then.
pub fn recorded_row_stands()
    ensures { (point : Point) (entry : Entry) (kept : KeptRow) →
        IsReplied point entry → IsRecorded point entry → (by : IsRecordedBy point entry.event (served_at point entry) kept) →
        by.row.stands ≡ true }
{}
