//! Floor of values: what an artifact is, as trees of files, directories and links, seen as flat lists.
#![tactic(auto)]

mod build;
mod copy;
mod count;
mod find;
mod flat;
mod listing;
mod node;
mod refusal;
mod refuse;
mod same;
mod sum;
#[cfg(test)]
mod tests;
mod tree;

pub use flat::{Flat, GREATEST_FILE, What};
pub use node::{Child, Children, Node};
pub use refusal::TreeRefusal;
pub use refuse::follows;
pub use sum::{Kind, Sum};
pub use tree::Tree;
