//! Floor of ports: a disk and the parts of it that it lends: what their calls promise, and a form of both in memory.
#![tactic(auto)]

mod counts;
mod crash;
mod got;
mod listed;
mod listing;
mod mem_disk;
mod mem_region;
mod node;
mod nodes;
mod pieces;
mod port;
mod segments;
mod states;
mod strays;
#[cfg(test)]
mod tests;

pub use crash::Rest;
pub use got::Got;
pub use listed::{Form, Listed, Seen};
pub use mem_disk::MemDisk;
pub use mem_region::MemRegion;
pub use port::{Disk, Region};
pub use states::{Bare, Part, ReadLoan, Rough, Settled, Synced};
pub use strays::Strays;
