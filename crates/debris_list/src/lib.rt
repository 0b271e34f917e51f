//! Floor of books: debris: the paths whose parts of the disk belong to no row, each condemned or not.
#![tactic(auto)]

mod list;
mod piece;
mod pieces;
mod places;
#[cfg(test)]
mod tests;

pub use list::DebrisList;
