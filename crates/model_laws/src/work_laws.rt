ghost use Rattle.std.specs.Prelude.{◌≡◌, List, true};
ghost use Rattle.mat_model.specs.declared.entries.Entry.{Entry};
ghost use Rattle.mat_model.specs.declared.opening.Opening.{Opening};
ghost use Rattle.mat_model.specs.History.{Point, after, after_all, book_of, next_number, opened, point_of};
ghost use Rattle.mat_model.specs.Legal.{ComesInOrder, IsAskable, IsEach};
ghost use Rattle.mat_model.specs.Openings.{IsOpening};
ghost use Rattle.mat_model.specs.Rows.{are_apart};
ghost use Rattle.model_laws.specs.RowRules.{AreStampedBelow};
ghost use Rattle.model_laws.specs.KeptRules.{KeptAscend};
ghost use Rattle.model_laws.specs.PointRules.{GoesOn, IsPoint};
ghost use Rattle.model_laws.specs.StoredRules.{IsStored};
ghost use Rattle.model_laws.specs.WorkRules.{IsPlaced, IsWork};

/// An entry whose work comes in order keeps the rules of a work state.
pub fn entry_keeps_work()
    ensures { (point : Point) (entry : Entry) → ComesInOrder point entry →
        IsWork (next_number point) point.book.rows point.work →
        IsWork (next_number (after point entry)) (after point entry).book.rows (after point entry).work }
{}

/// Behind any point, entries whose work comes in order keep the rules of a work state.
pub fn history_keeps_work()
    ensures { (point : Point) (later : List Entry) → IsEach ComesInOrder point later →
        IsWork (next_number point) point.book.rows point.work →
        IsWork (next_number (after_all point later)) (after_all point later).book.rows (after_all point later).work }
{}

/// From an opening that is right, every history whose work comes in order leads to a work state that keeps the rules.
pub fn opening_keeps_work()
    ensures { (opening : Opening) (history : List Entry) → IsOpening opening → IsEach ComesInOrder (opened opening) history →
        IsWork (next_number (point_of opening history)) (book_of opening history).rows (point_of opening history).work }
{}

/// An entry that asks for what may be asked keeps trees and ways at paths, and held rows plain files, whatever else it does.
pub fn entry_keeps_placed()
    ensures { (point : Point) (entry : Entry) → are_apart point.book.rows ≡ true → AreStampedBelow (next_number point) point.book.rows →
        KeptAscend point.kept → IsAskable point entry → IsPlaced point.book.rows point.work point.kept →
        IsPlaced (after point entry).book.rows (after point entry).work (after point entry).kept }
{}

/// Behind any point, entries that ask for what may be asked do so too.
pub fn history_keeps_placed()
    ensures { (point : Point) (later : List Entry) → are_apart point.book.rows ≡ true → AreStampedBelow (next_number point) point.book.rows →
        KeptAscend point.kept → IsEach IsAskable point later → IsPlaced point.book.rows point.work point.kept →
        IsPlaced (after_all point later).book.rows (after_all point later).work (after_all point later).kept }
{}

/// From an opening that is right, every history that asks for what may be asked leads to trees and ways that lie at paths.
pub fn opening_keeps_placed()
    ensures { (opening : Opening) (history : List Entry) → IsOpening opening → IsEach IsAskable (opened opening) history →
        IsPlaced (book_of opening history).rows (point_of opening history).work (point_of opening history).kept }
{}

/// An entry whose work comes in order keeps the rules of the kept rows, where the work state keeps its own.
pub fn entry_keeps_stored()
    ensures { (point : Point) (entry : Entry) → ComesInOrder point entry →
        IsWork (next_number point) point.book.rows point.work → IsStored point.book.rows point.work.jobs point.kept →
        IsStored (after point entry).book.rows (after point entry).work.jobs (after point entry).kept }
{}

/// Behind any point, entries whose work comes in order do so too.
pub fn history_keeps_stored()
    ensures { (point : Point) (later : List Entry) → IsEach ComesInOrder point later →
        IsWork (next_number point) point.book.rows point.work → IsStored point.book.rows point.work.jobs point.kept →
        IsStored (after_all point later).book.rows (after_all point later).work.jobs (after_all point later).kept }
{}

/// From an opening that is right, every history whose work comes in order leads to kept rows that keep their rules.
pub fn opening_keeps_stored()
    ensures { (opening : Opening) (history : List Entry) → IsOpening opening → IsEach ComesInOrder (opened opening) history →
        IsStored (book_of opening history).rows (point_of opening history).work.jobs (point_of opening history).kept }
{}

/// An entry whose work comes in order and that asks for what may be asked keeps all rules of a point.
pub fn entry_keeps_point()
    ensures { (point : Point) (entry : Entry) → GoesOn point entry → IsPoint point → IsPoint (after point entry) }
{}

/// Behind any point, such entries do so too.
pub fn history_keeps_point()
    ensures { (point : Point) (later : List Entry) → IsEach GoesOn point later → IsPoint point → IsPoint (after_all point later) }
{}

/// From an opening that is right, every such history leads to a point that keeps all rules.
pub fn opening_keeps_point()
    ensures { (opening : Opening) (history : List Entry) → IsOpening opening → IsEach GoesOn (opened opening) history →
        IsPoint (point_of opening history) }
{}
