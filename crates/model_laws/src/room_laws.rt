ghost use Rattle.std.specs.Prelude.{◌≡◌, ◌≤◌, ℕ, List, length};
ghost use Rattle.mat_model.specs.declared.entries.Entry.{Entry};
ghost use Rattle.mat_model.specs.declared.limits.Limits.{Limits};
ghost use Rattle.mat_model.specs.declared.opening.Opening.{Opening};
ghost use Rattle.mat_model.specs.History.{Point, after_all, opened, point_of};
ghost use Rattle.mat_model.specs.Legal.{ComesInOrder, IsEach, IsLegal};
ghost use Rattle.mat_model.specs.Room.{HasRoom};
ghost use Rattle.model_laws.specs.RoomRules.{IsRoomy};

/// Where there was room for each entry and work came in order, all that is counted stays within the limits: the entries that are spent, the nodes
/// that were declared, the paths of rows and kept rows, the bytes that are held, the open tickets, the holds, and the commands that wait.
pub fn room_keeps_limits()
    ensures { (limits : Limits) (point : Point) (later : List Entry) →
        IsRoomy limits point → IsEach (HasRoom limits) point later → IsEach ComesInOrder point later →
        IsRoomy limits (after_all point later) }
{}

/// An opening whose rows are within the limit of rows is within all limits.
pub fn opening_is_within_limits()
    ensures { (limits : Limits) (opening : Opening) → length opening.rows ≤ limits.rows → IsRoomy limits (opened opening) }
{}

/// From such an opening each legal history leads to a point within the limits.
pub fn legal_history_is_within_limits()
    ensures { (limits : Limits) (opening : Opening) (history : List Entry) →
        length opening.rows ≤ limits.rows → IsLegal limits opening history → IsRoomy limits (point_of opening history) }
{}
