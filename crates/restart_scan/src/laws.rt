//! Laws of the first refusal. Each of these functions does nothing.
ghost use Rattle.std.specs.Prelude.{◌≡◌, ℕ, List, None, Some, true};
ghost use Rattle.std.specs.List.{Contains};
ghost use Rattle.mat_path.specs.Names.{overlap};
ghost use Rattle.mat_model.specs.Kept.{KeptRow};
ghost use Rattle.mat_model.specs.Rows.{comes_before};
ghost use Rattle.model_laws.specs.KeptRules.{KeptAscend};
ghost use Rattle.restart_scan.specs.Opened.{are_kept_apart};
ghost use Rattle.restart_scan.specs.Rows.{first_overlap};

/// Of kept rows in path order the neighbours tell whether two overlap, and which are the first: a row before the first of this pair overlaps no other one.
pub fn neighbours_are_enough()
    ensures none { (kept : List KeptRow) → KeptAscend kept → first_overlap kept ≡ None → are_kept_apart kept ≡ true }
    ensures first { (kept : List KeptRow) (pair : List (List ℕ) × List (List ℕ)) (one other : KeptRow) → KeptAscend kept →
        first_overlap kept ≡ Some pair → Contains kept one → Contains kept other → overlap one.path other.path ≡ true →
        comes_before one.path pair.0 ≡ true → one ≡ other }
{}
