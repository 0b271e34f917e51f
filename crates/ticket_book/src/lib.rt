//! Floor of books: the tickets, in order of number, and the order in which they were answered.
#![tactic(auto)]

mod below;
mod book;
mod by_command;
mod by_path;
mod index;
mod lists;
mod numbers;

pub use book::TicketBook;

#[cfg(test)]
mod tests;
