//! Floor of the machine: the core, where book, work and devices meet.
#![tactic(auto)]

mod arming;
mod asking;
mod base;
mod beginning;
mod begins;
mod begun;
mod calling;
mod choosing;
mod cleaning;
mod copying;
mod core_;
mod declaring;
mod ending;
mod ends;
mod ensuring;
mod entering;
mod falling;
mod fitting;
mod flushing;
mod granting;
mod invalidating;
mod keeping;
mod laws;
mod leaving;
mod listing;
mod looking;
mod losing;
mod opening;
mod opening_debris;
mod parts;
mod preparing;
mod removing;
mod replacing;
mod room;
mod starting;
mod sweeping;
#[cfg(test)]
mod tests;
mod writing;

pub use base::Base;
pub use begins::Begun;
pub use core_::{Core, Place, Poll};
pub use ends::Finished;
pub use laws::{
    begin_keeps_core, cleaned_stamps_are_gone, end_keeps_core, refusal_keeps_core,
    untouched_devices_keep_core,
};
pub use starting::Shut;
