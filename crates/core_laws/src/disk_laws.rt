ghost use Rattle.std.specs.Prelude.{◌≡◌, ℕ, List, [], false};
ghost use Rattle.mat_path.specs.Names.{overlap};
ghost use Rattle.mat_tree.specs.Parts.{Part, below, replaced, without};
ghost use Rattle.region_port.specs.Calls.{Paths, paths_below, paths_of_both, paths_outside};
ghost use Rattle.core_laws.specs.Places.{IsBareBelow, IsGivenAt, IsSameBelow};

/// A take leaves what is at and below a path as it was, where the taken path is apart from it.
pub fn take_leaves_others()
    ensures { (taken place : List (List ℕ)) (content : Part) (rough : Paths) → overlap taken place ≡ false →
        IsSameBelow place content rough (without taken content) (paths_outside taken rough) }
{}

/// A take leaves nothing at and below the taken path.
pub fn take_leaves_nothing()
    ensures { (taken : List (List ℕ)) (content : Part) (rough : Paths) →
        IsBareBelow taken (without taken content) (paths_outside taken rough) }
{}

/// A give leaves what is at and below a path as it was, where the given path is apart from it.
pub fn give_leaves_others()
    ensures { (given place : List (List ℕ)) (inner content : Part) (its rough : Paths) → overlap given place ≡ false →
        IsSameBelow place content rough (replaced given inner content) (paths_of_both rough (paths_below given its)) }
{}

/// A give brings the part, as rough as it is, where nothing was at or below its path.
pub fn give_brings_part()
    ensures { (given : List (List ℕ)) (inner content : Part) (its rough : Paths) → IsBareBelow given content rough →
        IsGivenAt given inner its (replaced given inner content) (paths_of_both rough (paths_below given its)) }
{}

/// What is bare and stays as it was is bare.
pub fn same_keeps_bare()
    ensures { (place : List (List ℕ)) (old new : Part) (before after : Paths) → IsSameBelow place old before new after →
        IsBareBelow place old before → IsBareBelow place new after }
{}

/// A part that is taken and given back unchanged leaves everything as it was.
pub fn take_and_give_is_same()
    ensures { (taken : List (List ℕ)) (content : Part) (rough : Paths) →
        IsSameBelow [] content rough (replaced taken (below taken content) (without taken content))
        (paths_of_both (paths_outside taken rough) (paths_below taken (paths_below taken rough))) }
{}
