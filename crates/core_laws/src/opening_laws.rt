ghost use Rattle.std.specs.Prelude.{◌≡◌, ℕ, List, [], Bool, false, map};
ghost use Rattle.std.specs.List.{Contains};
ghost use Rattle.mat_tree.specs.Parts.{Part};
ghost use Rattle.mat_model.specs.declared.opening.Opening.{Opening};
ghost use Rattle.mat_model.specs.History.{opened};
ghost use Rattle.mat_model.specs.Kept.{KeptRow};
ghost use Rattle.mat_model.specs.Openings.{IsOpening, opening_rows, path_of_row};
ghost use Rattle.region_port.specs.Calls.{Paths};
ghost use Rattle.region_port.specs.Strays.{AreTopmost, candidates};
ghost use Rattle.core_laws.specs.Covered.{IsCovered, IsRoughWithin};
ghost use Rattle.core_laws.specs.Loans.{AreOut};
ghost use Rattle.core_laws.specs.Tied.{AreTied};
ghost use Rattle.core_laws.specs.Whole.{AreAgain, IsWhole};

/// What an opening keeps are kept rows of before, with their paths and trees, where its rows are those that were found.
pub fn opening_keeps_again()
    ensures { (opening : Opening) (lost : List (List (List ℕ))) (kept : List KeptRow) → opening.rows ≡ opening_rows lost kept →
        AreAgain kept (opened opening).kept }
{}

/// Nothing is out of a disk that lends nothing.
pub fn nothing_is_out()
    ensures { (content : Part) (rough : Paths) → AreOut [] content rough }
{}

/// The rows of an opening are tied, where they are whole as kept rows.
pub fn opening_is_tied()
    ensures { (spoken : ℕ → Bool) (opening : Opening) (content : Part) (rough : Paths) → IsWhole [] (opened opening).kept content rough →
        AreTied spoken (opened opening).book.rows (opened opening).work.jobs content rough }
{}

/// Then each node is at or below a row's path or is debris, where nothing is lost, and the strays are the topmost nodes that are apart from the rows' paths.
pub fn opening_is_covered()
    ensures { (opening : Opening) (known : List (List (List ℕ))) (content : Part) (rough : Paths) → IsOpening opening →
        opening.lost ≡ [] → ((path : List (List ℕ)) → Contains known path → Contains (map path_of_row opening.rows) path) →
        AreTopmost (candidates known content) opening.strays → IsWhole [] (opened opening).kept content rough →
        IsCovered (opened opening).book.rows (opened opening).work content }
{}

/// Where nothing is rough, rough paths are within any places.
pub fn settled_is_within()
    ensures { (places : List (List (List ℕ))) (rough : Paths) → ((path : List (List ℕ)) → rough path ≡ false) → IsRoughWithin places rough }
{}
