ghost use Rattle.std.specs.Prelude.{◌≡◌, ◌≤◌, ℕ, List, None, true, false};
ghost use Rattle.mat_path.specs.Covering.{covering};
ghost use Rattle.mat_path.specs.Names.{is_prefix};
ghost use Rattle.mat_tree.specs.Parts.{Part, replaced, without};
ghost use Rattle.region_port.specs.Calls.{Paths, paths_below, paths_of_both, paths_outside};
ghost use Rattle.core_laws.specs.Covered.{AreKeptAside, AreKeptPlaces, AreNodesWithin, IsRoughWithin};
ghost use Rattle.core_laws.specs.Loans.{AreOut};

/// After a take nodes are within the places that are kept but for what is at or below the taken path.
pub fn take_keeps_nodes()
    ensures { (places others : List (List (List ℕ))) (taken : List (List ℕ)) (content : Part) → AreNodesWithin places content →
        AreKeptAside taken places others → AreNodesWithin others (without taken content) }
{}

/// So are rough paths.
pub fn take_keeps_rough()
    ensures { (places others : List (List (List ℕ))) (taken : List (List ℕ)) (rough : Paths) → IsRoughWithin places rough →
        AreKeptAside taken places others → IsRoughWithin others (paths_outside taken rough) }
{}

/// A give at or below one of the places keeps nodes within them.
pub fn give_keeps_nodes()
    ensures { (places : List (List (List ℕ))) (given : List (List ℕ)) (inner content : Part) → AreNodesWithin places content →
        1 ≤ covering given places → AreNodesWithin places (replaced given inner content) }
{}

/// And rough paths.
pub fn give_keeps_rough()
    ensures { (places : List (List (List ℕ))) (given : List (List ℕ)) (its rough : Paths) → IsRoughWithin places rough →
        1 ≤ covering given places → IsRoughWithin places (paths_of_both rough (paths_below given its)) }
{}

/// So does a give of a part that has nothing, wherever it is.
pub fn bare_give_keeps_nodes()
    ensures { (places : List (List (List ℕ))) (given : List (List ℕ)) (inner content : Part) → AreNodesWithin places content →
        ((rel : List (List ℕ)) → inner rel ≡ None) → AreNodesWithin places (replaced given inner content) }
{}

/// And one of a part that isn't rough.
pub fn settled_give_keeps_rough()
    ensures { (places : List (List (List ℕ))) (given : List (List ℕ)) (its rough : Paths) → IsRoughWithin places rough →
        ((path : List (List ℕ)) → is_prefix given path ≡ true → its path ≡ false) →
        IsRoughWithin places (paths_of_both rough (paths_below given its)) }
{}

/// Nodes are within the places that are kept but for what is out, since the disk has nothing there.
pub fn kept_places_keep_nodes()
    ensures { (lent places others : List (List (List ℕ))) (content : Part) (rough : Paths) → AreOut lent content rough →
        AreKeptPlaces lent places others → AreNodesWithin places content → AreNodesWithin others content }
{}

/// So are rough paths.
pub fn kept_places_keep_rough()
    ensures { (lent places others : List (List (List ℕ))) (content : Part) (rough : Paths) → AreOut lent content rough →
        AreKeptPlaces lent places others → IsRoughWithin places rough → IsRoughWithin others rough }
{}
