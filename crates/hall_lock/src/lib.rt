//! Floor of values: a lock that keeps one history for many threads: each turn runs one act on the value at one point of it.
#![tactic(auto)]

mod chronicle;
mod closing;
mod lock;
mod opening;
mod pass;
mod seat;
mod steps;
#[cfg(test)]
mod tests;

pub use crate::chronicle::{Act, Chronicle};
pub use crate::lock::HallLock;
pub use crate::pass::Pass;

/// The caller of an entry, and the number of that caller's entry, from 0.
#[derive(Clone, Copy, Debug, PartialEq, Eq)]
pub struct By {
    pub caller: u32,
    pub number: u64,
}
