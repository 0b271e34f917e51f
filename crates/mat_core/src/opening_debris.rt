// The debris with which a core begins.
ghost use Rattle.std.specs.Prelude.{◌≡◌, ◌≤◌, ◌+◌, ◌∷◌, [], ℕ, List, true, length, map, IfNone, IfOk, IfSome};
ghost use Rattle.mat_path.specs.Covering.{covering};
ghost use Rattle.mat_tree.specs.Trees.{ascends_by};
ghost use Rattle.mat_model.specs.Openings.{itself, stray_debris};
ghost use Rattle.mat_model.specs.WorkState.{path_of_debris};
ghost use Rattle.mat_core.specs.Opened.{is_lost_first, strays_with};

use debris_list::DebrisList;
use mat_path::{Memory, Path};
use std::alloc::Global;
use std::collections::VecDeque;

// Whether the first of some lost paths comes before the first of some strays, where there is one.
fn is_lost_first(strays: &VecDeque<Path>, lost: &VecDeque<Path>) -> bool
    ensures { result ≡ is_lost_first strays.now.items lost.now.items }
{
    match (strays.front(), lost.front()) {
        (_, None) => false,
        (None, Some(_)) => true,
        (Some(stray), Some(gone)) => *gone < *stray,
    }
}

// The first of strays and lost paths, each in order, is taken out.
fn take_first(strays: &mut VecDeque<Path>, lost: &mut VecDeque<Path>) -> Option<Path>
    requires strays { ascends_by itself strays.old.items ≡ true }
    requires lost { ascends_by itself lost.old.items ≡ true }
    ensures first { IfSome result (λ path. strays_with strays.old.items lost.old.items ≡ stray_debris path ∷ strays_with strays.new.items lost.new.items) }
    ensures none { IfNone result (strays_with strays.old.items lost.old.items ≡ []) }
    ensures strays { ascends_by itself strays.new.items ≡ true }
    ensures lost { ascends_by itself lost.new.items ≡ true }
    ensures count { IfSome result (λ path. length strays.new.items + length lost.new.items + 1 ≡ length strays.old.items + length lost.old.items) }
{
    if is_lost_first(strays, lost) {
        lost.pop_front()
    } else {
        strays.pop_front()
    }
}

/// The debris of strays and of lost paths, each in order: one walk over both.
pub(crate) fn debris_in(
    alloc: Global,
    strays: Vec<Path>,
    lost: Vec<Path>,
) -> Result<DebrisList, Memory>
    requires strays { ascends_by itself strays.items ≡ true }
    requires lost { ascends_by itself lost.items ≡ true }
    requires order { ascends_by path_of_debris (strays_with strays.items lost.items) ≡ true }
    requires apart { (path : List (List ℕ)) → covering path (map path_of_debris (strays_with strays.items lost.items)) ≤ 1 }
    ensures { IfOk result (λ debris. debris.list ≡ strays_with strays.items lost.items) }
{
    let mut debris = DebrisList::new(alloc);
    debris.reserve(strays.len() as u64 + lost.len() as u64)?;
    let mut strays = VecDeque::from(strays);
    let mut lost = VecDeque::from(lost);
    'adding: while let Some(path) = take_first(&mut strays, &mut lost) {
        debris.add(path, false);
    }
    Ok(debris)
}
