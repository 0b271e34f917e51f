//! Floor of ports: where the bytes of files come from: what a store promises, a store in memory, and a store behind a turnstile.
#![tactic(auto)]

mod fetched;
mod gated;
mod key;
mod mem_store;
mod port;
#[cfg(test)]
mod tests;

pub use fetched::Fetched;
pub use gated::{Gated, Turnstile};
pub use mem_store::MemStore;
pub use port::Fetcher;
