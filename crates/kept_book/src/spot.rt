ghost use Rattle.std.specs.Prelude.{◌≡◌};
ghost use Rattle.std.specs.Option.{option_copied};
ghost use Rattle.kept_book.specs.Spots.{both, mark_count, use_in, with_place, with_use, without_place, without_use};

/// What stands at a path: a mark, a place that is reserved, or both.
#[derive(Debug, Drop)]
pub enum Spot {
    Kept { last: u64, new: bool },
    Reserved,
    Both { last: u64, new: bool },
}

// What stands at a path once a mark does.
pub(crate) fn with_use(found: Option<&Spot>, last: u64, new: bool) -> Spot
    ensures { result ≡ with_use (option_copied found.entry) last new }
{
    match found {
        Some(Spot::Kept { .. }) => Spot::Kept { last, new },
        Some(Spot::Reserved) => Spot::Both { last, new },
        Some(Spot::Both { .. }) => Spot::Both { last, new },
        None => Spot::Kept { last, new },
    }
}

// What stands at a path once a place is reserved.
pub(crate) fn with_place(found: Option<&Spot>) -> Spot
    ensures { result ≡ with_place (option_copied found.entry) }
{
    match found {
        Some(Spot::Kept { last, new }) => both(*last, *new),
        Some(Spot::Reserved) => Spot::Reserved,
        Some(Spot::Both { last, new }) => both(*last, *new),
        None => Spot::Reserved,
    }
}

// A mark and a reserved place.
fn both(last: u64, new: bool) -> Spot
    ensures { result ≡ both last new }
{
    Spot::Both { last, new }
}

// What is left at a path without a mark.
pub(crate) fn without_use(found: Option<&Spot>) -> Option<Spot>
    ensures { result ≡ without_use (option_copied found.entry) }
{
    match found {
        Some(Spot::Kept { .. }) => None,
        Some(Spot::Reserved) => Some(Spot::Reserved),
        Some(Spot::Both { .. }) => Some(Spot::Reserved),
        None => None,
    }
}

// What is left at a path without a reserved place.
pub(crate) fn without_place(found: Option<&Spot>) -> Option<Spot>
    ensures { result ≡ without_place (option_copied found.entry) }
{
    match found {
        Some(Spot::Kept { last, new }) => Some(Spot::Kept {
            last: *last,
            new: *new,
        }),
        Some(Spot::Reserved) => None,
        Some(Spot::Both { last, new }) => Some(Spot::Kept {
            last: *last,
            new: *new,
        }),
        None => None,
    }
}

// The last use and the version of the mark of what stands at a path.
pub(crate) fn use_in(found: Option<&Spot>) -> Option<(u64, bool)>
    ensures { result ≡ use_in (option_copied found.entry) }
{
    match found {
        Some(Spot::Kept { last, new }) => Some((*last, *new)),
        Some(Spot::Reserved) => None,
        Some(Spot::Both { last, new }) => Some((*last, *new)),
        None => None,
    }
}

// How many marks stand at a path: one or none.
pub(crate) fn mark_count(found: Option<&Spot>) -> usize
    ensures { result ≡ mark_count (option_copied found.entry) }
{
    match found {
        Some(Spot::Kept { .. }) => 1,
        Some(Spot::Reserved) => 0,
        Some(Spot::Both { .. }) => 1,
        None => 0,
    }
}
