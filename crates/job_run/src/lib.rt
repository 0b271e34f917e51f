//! Floor of the machine: jobs that make a part of a disk have a tree, or leave it empty, in steps of one device call each.
#![tactic(auto)]

mod acts;
mod arming;
mod calls;
mod ending;
mod failure;
mod getting;
mod going;
mod job;
mod lending;
mod machine;
mod pieces;
mod putting;
mod reading;
mod states;
mod stepping;
#[cfg(test)]
mod tests;

pub use job::{Done, Job, Next, Stepped, work_off};
