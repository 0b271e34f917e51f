//! Floor of values: kept rows as bytes. A row has a tree and, from its second version on, a number that says to which folder it belongs.
//!
//! Both versions are read, and the second is written.
#![tactic(auto)]

mod fields;
mod laws;
mod mark;
mod nodes;
mod read;
mod refusal;
mod row;
#[cfg(test)]
mod tests;
mod write;

pub use laws::{row_is_one, rows_are_read};
pub use read::read_row;
pub use refusal::RowRefusal;
pub use row::KeptTree;
pub use write::write_row;
