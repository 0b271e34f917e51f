//! Floor of the language: the lines of a script, what each asks for, and the text of what is told of it.
//!
//! A line is words with single spaces between them. `read_line` reads it as an item, and `write_item` writes an item as its
//! line. Each item within the bounds of lines has exactly one line: what is written is read as the item again, and what is
//! read is written as the line again.
#![tactic(auto)]

mod flags;
mod items;
mod lines;
mod requests;
mod spelled;
#[cfg(test)]
mod tests;
mod texts;
mod told;
mod verbs;
mod words;
mod writing;

pub use items::{Item, Line, Pick};
pub use lines::read_line;
pub use texts::{
    push_answer, push_not_yet, push_numbered, push_reply, push_told, push_unread, write_told,
};
pub use told::{Answered, Said, ScanNote, Told};
pub use writing::write_item;
