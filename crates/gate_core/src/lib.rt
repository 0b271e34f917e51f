//! Floor of books: the gate: which commands are live, on which state, and who waits for which.
#![tactic(auto)]

mod gate;
mod lists;
mod numbers;
#[cfg(test)]
mod tests;

pub use gate::{Entering, Gate};
