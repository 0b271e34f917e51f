ghost use Rattle.std.specs.Prelude.{◌≡◌, ◌≤◌, ◌∷◌, ◌++◌, [], ℕ, false, List, Option, Some, length};
ghost use Rattle.std.specs.List.{Contains, list_any};
ghost use Rattle.std.specs.Option.{ForSome, option_map};
ghost use Rattle.mat_tree.specs.Parts.{Part};
ghost use Rattle.mat_model.specs.declared.answers.FaultNote.{FaultNote};
ghost use Rattle.mat_model.specs.declared.answers.Reply.TheVariants as reply;
ghost use Rattle.mat_model.specs.declared.book.Row.{Row};
ghost use Rattle.mat_model.specs.declared.entries.Entry.{Entry};
ghost use Rattle.mat_model.specs.declared.entries.Event.TheVariants as event;
ghost use Rattle.mat_model.specs.declared.entries.Outcome.{Outcome};
ghost use Rattle.mat_model.specs.declared.entries.Task.{Task};
ghost use Rattle.mat_model.specs.declared.opening.Opening.{Opening};
ghost use Rattle.mat_model.specs.History.{after, point_of};
ghost use Rattle.mat_model.specs.Kept.{overlaps_kept};
ghost use Rattle.mat_model.specs.Legal.{IsLegalEntry, note_of, note_of_end};
ghost use Rattle.mat_model.specs.Openings.{IsOpening};
ghost use Rattle.mat_model.specs.WorkState.{Job, Lent, path_of_task, running};
ghost use Rattle.region_port.specs.Calls.{Paths};
ghost use Rattle.keep_port.specs.Rows.{remove_all};
ghost use Rattle.keep_port.specs.declared.row.RawRow.{RawRow};
ghost use Rattle.core_laws.specs.Ends.{IsReadPart};
ghost use Rattle.core_laws.specs.Stored.{AreDropped, HasDiskRisen, IsNoteWithin, IsStore};
ghost use Rattle.mat_core.specs.Books.{is_same_stamp};
ghost use Rattle.mat_core.specs.Cores.{IsSeen, IsSound, MaySpeak, Seen, point_in};
ghost use Rattle.core_devices.specs.Told.{ToldDisk, ToldStore};
ghost use Rattle.core_devices.specs.Events.{HasAgain, HasBack, HasLent, IsEndedTold, read_at};

/// What is true of a core stays true as a job begins: its parts are lent, and the kept rows that overlap its task's path are removed.
pub fn begin_keeps_core<D, K>()
    ensures { (told : D → ToldDisk) (stored : K → ToldStore) (seen : Seen D K) (entry : Entry) (begun : Task) (disk : D) (keeper : K)
        (paths : List (List (List ℕ))) → IsSeen told stored seen → IsLegalEntry seen.base.limits (point_in seen) entry →
        entry.event ≡ event.Begin begun → entry.reply ≡ reply.Started →
        HasLent begun (read_at (point_in seen) begun) (told seen.disk) (told disk) →
        ((rows : List RawRow) → IsStore seen.base.identity (point_in seen).kept rows → AreDropped (overlaps_kept (path_of_task begun)) (point_in seen).kept paths) →
        (stored keeper).rows ≡ option_map (λ rows. remove_all rows paths) (stored seen.keeper).rows →
        (stored seen.keeper).faults ≤ (stored keeper).faults →
        IsSeen told stored (record seen { history = seen.history ++ entry ∷ []; disk = disk; keeper = keeper }) }
{}

/// It stays true where a begin isn't made: the disk has again, place by place, what it had.
pub fn untouched_devices_keep_core<D, K>()
    ensures { (told : D → ToldDisk) (stored : K → ToldStore) (seen : Seen D K) (disk : D) (keeper : K) → IsSeen told stored seen →
        HasAgain (told seen.disk) (told disk) → (stored keeper).rows ≡ (stored seen.keeper).rows →
        (stored seen.keeper).faults ≤ (stored keeper).faults → IsSeen told stored (record seen { disk = disk; keeper = keeper }) }
{}

/// So it does where it is refused, and that is entered: the count of the state store is at least that of the note.
pub fn refusal_keeps_core<D, K>()
    ensures { (told : D → ToldDisk) (stored : K → ToldStore) (seen : Seen D K) (entry : Entry) (begun : Task) (note : FaultNote) (disk : D)
        (keeper : K) → IsSeen told stored seen → IsLegalEntry seen.base.limits (point_in seen) entry → entry.event ≡ event.Begin begun →
        entry.reply ≡ reply.Refused note → HasAgain (told seen.disk) (told disk) → (stored keeper).rows ≡ (stored seen.keeper).rows →
        (stored seen.keeper).faults ≤ (stored keeper).faults → note.after ≤ (stored keeper).faults →
        IsSeen told stored (record seen { history = seen.history ++ entry ∷ []; disk = disk; keeper = keeper }) }
{}

/// It stays true as a job ends: its parts are back, its task's as its outcome says and the one that it read as it was, where that may be spoken for, and
/// the state store has the kept rows of the point behind the entry.
pub fn end_keeps_core<D, K>()
    ensures { (told : D → ToldDisk) (stored : K → ToldStore) (seen : Seen D K) (entry : Entry) (number : ℕ) (out : Outcome) (job : Job)
        (inner part : Option Part) (its of_part : Paths) (disk : D) (keeper : K) → IsSeen told stored seen →
        IsLegalEntry seen.base.limits (point_in seen) entry → entry.event ≡ event.Done number out → running number (point_in seen).work ≡ Some job →
        HasBack job inner its part of_part (told seen.disk) (told disk) → IsEndedTold job.task out (point_in seen).book.rows inner its →
        ((one : Lent) → job.lent ≡ Some one → MaySpeak (length seen.base.opening.value.rows) seen.base.check
        (IsSound seen.base.identity (told seen.base.disk.value) (stored seen.base.keeper.value)) one.stamp →
        ForSome part (λ (p : Part). IsReadPart one p of_part)) →
        ForSome (stored keeper).rows (IsStore seen.base.identity (after (point_in seen) entry).kept) →
        (stored seen.keeper).faults ≤ (stored keeper).faults → IsNoteWithin (stored keeper).faults (note_of entry.reply) →
        HasDiskRisen (told disk).faults (note_of_end entry.event) →
        IsSeen told stored (record seen { history = seen.history ++ entry ∷ []; disk = disk; keeper = keeper }) }
{}

/// At each point of a history from a right opening, be its entries legal or not, no row has the stamp of a row that a clean removed.
pub fn cleaned_stamps_are_gone()
    ensures { (opening : Opening) (history : List Entry) (row : Row) →
        IsOpening opening → Contains (point_of opening history).book.rows row →
        list_any (is_same_stamp row.stamp) (point_of opening history).work.cleaned ≡ false }
{}
