//! Floor of values: Directory messages of the Remote Execution API v2, read and written, and the sums of trees.
#![tactic(auto)]

mod fields;
mod message;
mod read;
mod read_digest;
mod read_laws;
mod read_list;
mod read_name;
mod read_node;
mod read_wire;
mod refusal;
mod sum;
mod sum_laws;
#[cfg(test)]
mod tests;
#[cfg(test)]
mod tests_write;
mod varint;
mod write;

pub use message::{DirMessage, DirNode, FileNode, LinkNode};
pub use read::read_dir;
pub use read_laws::{refusals_are_exact, text_is_one};
pub use refusal::DirRefusal;
pub use sum::sum_of;
pub use sum_laws::{read_children, sum_is_of_message};
pub use write::write_dir;
