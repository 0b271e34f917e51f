//! Laws of paths that overlap, and of how often a path is covered.

ghost use Rattle.std.specs.Prelude.{◌≡◌, ◌≤◌, ◌+◌, ◌&&◌, ℕ, Bool, List, [], ◌∷◌, ◌++◌, true, false, not, cond, map};
ghost use Rattle.std.specs.List.{Contains, filter, list_any};
ghost use Rattle.mat_path.specs.Covering.{covering, is_other_path};
ghost use Rattle.mat_path.specs.Names.{is_prefix, overlap, same_names};

/// Two prefixes of one path overlap.
pub fn prefixes_of_one_overlap()
    ensures { (p q x : List (List ℕ)) → is_prefix p x ≡ true → is_prefix q x ≡ true → overlap p q ≡ true }
{}

/// Two paths that overlap are prefixes of one path.
pub fn overlapping_paths_meet()
    ensures { (p q : List (List ℕ)) → overlap p q ≡ true →
        (x : List (List ℕ)) × (is_prefix p x ≡ true) × (is_prefix q x ≡ true) }
{}

/// What is at or below a path is apart from all that this is apart from.
pub fn apart_goes_down()
    ensures { (t k n : List (List ℕ)) → overlap t k ≡ false → is_prefix t n ≡ true → overlap n k ≡ false }
{}

/// A path at or above one that is strictly above another is strictly above that too.
pub fn strictly_above_goes_up()
    ensures { (c n k : List (List ℕ)) → is_prefix c n ≡ true → (is_prefix n k && not (same_names n k)) ≡ true →
        (is_prefix c k && not (same_names c k)) ≡ true }
{}

/// The paths of two lists count together.
pub fn covering_adds()
    ensures { (x : List (List ℕ)) (ps qs : List (List (List ℕ))) →
        covering x (ps ++ qs) ≡ covering x ps + covering x qs }
{}

/// A path that is put anywhere into a list counts where it is a prefix.
pub fn covering_grows()
    ensures { (x : List (List ℕ)) (ps : List (List (List ℕ))) (p : List (List ℕ)) (qs : List (List (List ℕ))) →
        covering x (ps ++ p ∷ qs) ≡ covering x (ps ++ qs) + cond (is_prefix p x) 1 0 }
{}

/// The paths that pass a test and those that don't count together.
pub fn covering_is_cut()
    ensures { (test : List (List ℕ) → Bool) (x : List (List ℕ)) (ps : List (List (List ℕ))) →
        covering x ps ≡ covering x (filter test ps) + covering x (filter (λ p. not (test p)) ps) }
{}

/// Paths that a function changes count the same where each is a prefix as before.
pub fn covering_is_kept()
    ensures { (f : List (List ℕ) → List (List ℕ)) (x : List (List ℕ)) (ps : List (List (List ℕ))) →
        ((p : List (List ℕ)) → Contains ps p → is_prefix (f p) x ≡ is_prefix p x) →
        covering x (map f ps) ≡ covering x ps }
{}

/// One of some paths that is taken out counts no more for what is at or below it.
pub fn covering_falls()
    ensures { (place x : List (List ℕ)) (ps : List (List (List ℕ))) → list_any (same_names place) ps ≡ true →
        is_prefix place x ≡ true → covering x (filter (is_other_path place) ps) + 1 ≤ covering x ps }
{}

/// Where no path is covered twice, a path overlaps none of those around it.
pub fn covered_once_is_apart()
    ensures { (ps : List (List (List ℕ))) (p : List (List ℕ)) (qs : List (List (List ℕ))) →
        ((x : List (List ℕ)) → covering x (ps ++ p ∷ qs) ≤ 1) → list_any (overlap p) (ps ++ qs) ≡ false }
{}

/// Where no path is covered twice, none is after a path is put in that overlaps none.
pub fn apart_is_covered_once()
    ensures { (ps : List (List (List ℕ))) (p : List (List ℕ)) (qs : List (List (List ℕ))) →
        list_any (overlap p) (ps ++ qs) ≡ false → ((x : List (List ℕ)) → covering x (ps ++ qs) ≤ 1) →
        (x : List (List ℕ)) → covering x (ps ++ p ∷ qs) ≤ 1 }
{}

/// Of rows that are named by paths, those that pass a test are cut by another one, and count together.
pub fn covering_of_rows_is_cut<Y>()
    ensures { (name : Y → List (List ℕ)) (test cut : Y → Bool) (x : List (List ℕ)) (ys : List Y) →
        covering x (map name (filter test ys))
        ≡ covering x (map name (filter (λ y. test y && cut y) ys))
        + covering x (map name (filter (λ y. test y && not (cut y)) ys)) }
{}
