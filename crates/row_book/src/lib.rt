//! Floor of books: the rows, each with where its bytes come from and whether its last make failed.
#![tactic(auto)]

mod book;
mod changes;
mod finds;
mod laws;
mod stock;
mod takes;

pub use book::RowBook;
pub use laws::{changes_are_in_step, held_is_in_step, rows_are_in_step};
pub use stock::{Stock, held_of};

#[cfg(test)]
mod tests;
