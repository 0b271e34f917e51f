// A store behind a turnstile.
ghost use Rattle.std.specs.Prelude.{◌≡◌};
ghost use Rattle.fetch_port.specs.Gates.{gated_store, gated_turnstile};

use crate::fetched::Fetched;
use crate::port::Fetcher;
use mat_digest::Digest;
use std::alloc::Allocator;
use std::sync::Arc;

/// What is passed before a fetch begins.
pub trait Turnstile {
    /// Lets the fetch of a digest begin once it returns.
    fn before_fetch(&self, digest: &Digest);
}

impl<G: Turnstile, A: Allocator> Turnstile for Arc<G, A> {
    fn before_fetch(&self, digest: &Digest) {
        (**self).before_fetch(digest);
    }
}

/// A store that passes a turnstile before each fetch that it begins, and else is the store behind it.
#[derive(Drop)]
pub struct Gated<F, G> {
    inner: F,
    turnstile: G,
}

impl<F: Fetcher, G: Turnstile> Gated<F, G> {
    /// A store behind a turnstile. It takes no memory.
    pub fn new(inner: F, turnstile: G) -> Gated<F, G>
        ensures inner { gated_store result ≡ inner }
        ensures turnstile { gated_turnstile result ≡ turnstile }
    {
        Gated { inner, turnstile }
    }
}

impl<F: Fetcher, G: Turnstile> Fetcher for Gated<F, G> {
    ghost holds = { λ gated. F.holds (gated_store gated) };

    ghost fetches = { λ gated. F.fetches (gated_store gated) };

    ghost fault_count = { λ gated. F.fault_count (gated_store gated) };

    ghost watch = { λ gated. F.watch (gated_store gated) };

    /// The piece that the store behind gives. Where `at` is 0 the turnstile is passed first.
    fn fetch_piece(&mut self, digest: &Digest, at: u64, most: u32) -> Fetched {
        if at == 0 {
            self.turnstile.before_fetch(digest);
        }
        self.inner.fetch_piece(digest, at, most)
    }

    /// What the store behind gives, once the turnstile was passed.
    fn fetch(&mut self, digest: &Digest) -> Fetched {
        self.turnstile.before_fetch(digest);
        self.inner.fetch(digest)
    }

    fn asks(&self) -> u64 {
        self.inner.asks()
    }

    fn faults(&self) -> u64 {
        self.inner.faults()
    }
}
