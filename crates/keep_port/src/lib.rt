//! Floor of ports: what a state store promises, which keeps rows across restarts, and a state store in memory.
#![tactic(auto)]

mod laws;
mod mem_keeper;
mod port;
mod row;
mod rows;
#[cfg(test)]
mod tests;

pub use laws::{
    calls_keep_order, remove_leaves_others, steps_tell_each_row, store_leaves_others,
    undone_calls_leave_all,
};
pub use mem_keeper::MemKeeper;
pub use port::{Halt, Keeper};
pub use row::{All, RawRow, Touch};
