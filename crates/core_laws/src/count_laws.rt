ghost use Rattle.std.specs.Prelude.{◌≡◌, ◌<◌, ◌≤◌, ◌+◌, ◌-◌, ◌^◌, min, ℕ, Bool, true, List, [], ◌∷◌, ◌++◌, Option, Some};
ghost use Rattle.mat_model.specs.declared.answers.Device.{Device};
ghost use Rattle.mat_model.specs.declared.answers.FaultNote.{FaultNote};
ghost use Rattle.mat_model.specs.declared.entries.Entry.{Entry};
ghost use Rattle.mat_model.specs.History.{is_keeper};
ghost use Rattle.mat_model.specs.Legal.{HasRisen, IsFaultOf, IsNoteFrom, count_behind, note_of, note_of_end};
ghost use Rattle.core_laws.specs.Stored.{AreCounted, HasDiskRisen, IsDiskNoteWithin, IsNoteWithin};

/// No counts are behind an empty history.
pub fn nothing_is_counted()
    ensures { (keeper disk : ℕ) → AreCounted [] keeper disk }
{}

/// Counts that aren't behind a history still aren't once they rise.
pub fn more_faults_are_counted()
    ensures { (history : List Entry) (keeper disk more_keeper more_disk : ℕ) → keeper ≤ more_keeper → disk ≤ more_disk →
        AreCounted history keeper disk → AreCounted history more_keeper more_disk }
{}

/// Nor are they once an entry comes whose note, if its reply has one, ends at most at the new count of the state store, and where that of the disk
/// isn't 0 if the entry is the end of a job with a failure of the disk.
pub fn entry_is_counted()
    ensures { (history : List Entry) (entry : Entry) (keeper disk more_keeper more_disk : ℕ) → keeper ≤ more_keeper → disk ≤ more_disk →
        IsNoteWithin more_keeper (note_of entry.reply) → HasDiskRisen more_disk (note_of_end entry.event) → AreCounted history keeper disk →
        AreCounted (history ++ entry ∷ []) more_keeper more_disk }
{}

/// A device's count that rose, or stands at the last number that 64 bits hold, is one that the note of its failure may tell.
pub fn risen_count_is_noted()
    ensures { (note : FaultNote) → note.before < 2 ^ 64 → note.after < 2 ^ 64 → min (note.before + 1) (2 ^ 64 - 1) ≤ note.after → HasRisen note }
{}

/// The disk's count isn't 0 where a job failed by a device whose count rose, and where, if this is the disk, the count stands no lower than its note says.
pub fn disk_fault_is_counted()
    ensures { (may : Device → Bool) (note : Option FaultNote) (disk : ℕ) → IsFaultOf may note → IsDiskNoteWithin disk note → HasDiskRisen disk note }
{}

/// A note of a call of the state store overlaps none of those before, where it begins no earlier than a count that isn't behind them.
pub fn counted_note_is_apart()
    ensures { (history : List Entry) (keeper disk : ℕ) (note : FaultNote) → AreCounted history keeper disk → keeper ≤ note.before →
        is_keeper note.device ≡ true → HasRisen note → IsNoteFrom (count_behind 0 history) (Some note) }
{}
