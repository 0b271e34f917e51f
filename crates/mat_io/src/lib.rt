//! Floor of values: where bytes come from and where they go: sources and sinks that count their faults, over readers
//! and writers of std and in memory; and clocks.
#![tactic(auto)]

mod answer;
mod clock;
mod mem_sink;
mod mem_source;
mod retry;
mod std_sink;
mod std_source;
#[cfg(test)]
mod tests;
mod ways;

pub use answer::{Did, Got, Put};
pub use clock::{Clock, MemClock};
pub use mem_sink::MemSink;
pub use mem_source::MemSource;
pub use std_sink::StdSink;
pub use std_source::StdSource;
pub use ways::{Arm, Sink, Source};
