//! Floor of the model: worked histories, each with what it leads to, as theorems on public functions without a body.
//! Nothing stands on this crate.
#![tactic(auto)]

pub mod broken;
pub mod clean;
pub mod copies;
pub mod declare;
pub mod failure;
pub mod first;
pub mod gate;
pub mod opening;
pub mod preemption;
pub mod room;
pub mod store;
