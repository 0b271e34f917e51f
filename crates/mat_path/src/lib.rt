//! Floor of values: names, paths and rels of the output folder, and the two small types that every crate above shares.
#![tactic(auto)]

mod covering_laws;
mod items;
mod memory;
mod name;
mod path;
mod reading;
mod rel;
mod target;

pub use covering_laws::{
    apart_goes_down, apart_is_covered_once, covered_once_is_apart, covering_adds, covering_falls,
    covering_grows, covering_is_cut, covering_is_kept, covering_of_rows_is_cut,
    overlapping_paths_meet, prefixes_of_one_overlap, strictly_above_goes_up,
};
pub use items::Items;
pub use memory::Memory;
pub use name::Name;
pub use path::{JoinRefusal, Path, PathRefusal};
pub use reading::{NAMES, TEXT_BYTES};
pub use rel::Rel;
pub use target::Target;

#[cfg(test)]
mod tests;
