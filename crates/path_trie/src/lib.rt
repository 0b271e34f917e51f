//! Floor of values: a map from paths to values, kept as a trie of names and seen as the list of its entries.
#![tactic(auto)]

mod change;
mod edit;
mod entry;
mod exchange;
mod find;
mod laws;
mod node;
mod pick;
mod pull;
mod seek;
mod steps;
mod swap;
mod trie;
mod walk;

pub use edit::Edit;
pub use entry::Entry;
pub use laws::{a_part_hung_back, cover_is_shortest};
pub use steps::Steps;
pub use trie::Trie;

#[cfg(test)]
mod tests;
