//! Floor of the machine: what a daemon finds when it opens: the kept rows of the state store, and the strays of the disk.
#![tactic(auto)]

mod kept;
mod laws;
mod look;
mod opening;
mod reading;
mod refusal;
mod scanning;
mod sort;
#[cfg(test)]
mod tests;

pub use laws::neighbours_are_enough;
pub use refusal::ScanRefusal;
pub use scanning::{Entrance, scan};
