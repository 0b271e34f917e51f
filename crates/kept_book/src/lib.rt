//! Floor of books: the paths that the state store has a row for, and the places that are reserved for rows.
#![tactic(auto)]

mod book;
mod laws;
mod mark;
mod spot;
mod spot_map;

pub use book::KeptBook;
pub use laws::{
    clear_marks_are_in_step, clear_marks_are_left, put_marks_are_in_step,
    unlisted_marks_are_in_step,
};
pub use mark::Mark;

#[cfg(test)]
mod tests;
