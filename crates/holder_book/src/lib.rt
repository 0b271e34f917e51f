//! Floor of books: the holds of commands, in the order in which they were given, and the paths that are held.
#![tactic(auto)]

mod book;
mod counts;

pub use book::HolderBook;

#[cfg(test)]
mod tests;
