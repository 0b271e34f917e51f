ghost use Rattle.mat_model.specs.Room.{greatest_limits};
ghost use Rattle.std.specs.Prelude.{◌≡◌, [], ◌∷◌, false, true};
ghost use Rattle.mat_model.specs.History.{opened, point_of};
ghost use Rattle.mat_model.specs.Legal.{IsLegal};
ghost use Rattle.mat_model.specs.Kept.{due};
ghost use Rattle.mat_model.specs.Openings.{IsOpening, opening_debris, opening_rows, stray_debris};
ghost use Rattle.model_examples.specs.OpeningRuns.{found_opening, stored_again_run, stored_file, three_kept};
ghost use Rattle.model_examples.specs.Steps.{digest_a, digest_b, path_p, path_q, path_r, path_s};

/// An opening that is right: its rows are those of the state store that aren't lost.
pub fn found_opening_is_right()
    ensures right { IsOpening found_opening }
    ensures rows { opening_rows (path_r ∷ []) three_kept ≡ found_opening.rows }
{}

/// The lost path and the stray are debris, and nobody asked for their removal.
pub fn lost_path_is_debris()
    ensures { opening_debris found_opening ≡ stray_debris path_r ∷ stray_debris path_s ∷ [] }
{}

/// The row that is stored in the first version is due.
pub fn version1_is_due()
    ensures kept { (opened found_opening).kept
        ≡ stored_file path_p digest_a 5 false ∷ stored_file path_q digest_b 9 true ∷ [] }
    ensures due { due (opened found_opening).book (opened found_opening).kept ≡ 1 }
{}

/// A flush stores it again, in the second version, and then nothing is due.
pub fn flush_stores_version1_again()
    ensures legal { IsLegal greatest_limits found_opening stored_again_run }
    ensures kept { (point_of found_opening stored_again_run).kept
        ≡ stored_file path_p digest_a 5 true ∷ stored_file path_q digest_b 9 true ∷ [] }
{}
