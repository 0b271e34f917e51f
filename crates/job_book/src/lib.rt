//! Floor of books: the jobs that run, and what each of them has on loan.
#![tactic(auto)]

mod book;
mod list;
mod loans;
mod running;

pub use book::JobBook;
pub use running::{KeptBytes, LentPart, LentTree, Running};

#[cfg(test)]
mod tests;
