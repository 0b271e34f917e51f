//! Floor of books: what a clean takes: the rows that are stale, and why each other one stays.
#![tactic(auto)]

mod picked;
mod picker;
mod picking;
#[cfg(test)]
mod tests;

pub use picked::{Picked, Spared, Why};
pub use picker::Picker;
pub use picking::pick;
