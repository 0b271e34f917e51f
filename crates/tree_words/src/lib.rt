//! Floor of values: trees as words, as the lines of a script have them.
//!
//! The words of a node are `f DIGEST REL` for a file, `x DIGEST REL` for an executable file,
//! `l TARGET REL` for a link and `d REL` for a directory. The words of a tree are those of the nodes
//! of its flat list, and single spaces stand between them.
#![tactic(auto)]

mod kind;
mod numbered;
mod read;
mod refusal;
#[cfg(test)]
mod tests;
mod words;
mod write;

pub use read::read_words;
pub use refusal::WordsRefusal;
pub use words::Words;
pub use write::{push_node, push_text, write_words};
