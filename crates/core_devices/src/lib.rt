//! Floor of the machine: what a core does to its devices: it lends parts of the disk and takes them back, and removes and stores rows.
#![tactic(auto)]

mod giving;
mod removing;
mod storing;
mod taking;
#[cfg(test)]
mod tests;

pub use giving::give_parts;
pub use removing::{Removal, remove_rows};
pub use storing::store_row;
pub use taking::{Loan, Source, Taken, return_parts, take_parts};
