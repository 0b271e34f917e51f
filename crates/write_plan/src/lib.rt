//! Floor of books: what a make does: the acts that make a part of a disk have a tree, and where the bytes of each file come from.
#![tactic(auto)]

mod act;
mod acts;
mod method;
#[cfg(test)]
mod tests;

pub use act::{Act, Supply};
pub use acts::plan;
pub use method::{Method, Origin};
