ghost use Rattle.std.specs.Prelude.{◌≡◌, ℕ, Option};
ghost use Rattle.std.specs.Option.{option_map};
ghost use Rattle.mat_io.specs.Causes.{HasCause, risen};
ghost use Rattle.fetch_port.specs.Fetches.{Blobs, Fetches, FetchesPiece, asks_after, fetch_failed, held_at};
ghost use Rattle.mat_io.specs.Watches.{CountsSo, FailsSo, Watch, after_call};

use crate::fetched::Fetched;
use mat_digest::Digest;

/// A store of bytes under digests.
pub trait Fetcher {
    // What the store holds, where it tells.
    ghost holds: { Self → Option Blobs };

    // How many fetches were begun, up to the last number that 64 bits hold.
    ghost fetches: { Self → ℕ };

    // How many faults there were, up to the last number that 64 bits hold.
    ghost fault_count: { Self → ℕ };

    // The calls so far and whether the next one is to fail, where the store tells that.
    ghost watch: { Self → Option Watch };

    /// Gives at most `most` of the bytes that the store holds under a digest, from the offset `at` on: fewer only where they end, and
    /// so none past their end. What it holds stays, whatever it answers. A call at the offset 0 begins a fetch, also where it
    /// fails.
    fn fetch_piece(&mut self, digest: &Digest, at: u64, most: u32) -> Fetched
        ensures got { FetchesPiece (held_at (holds self.old) digest.now) at most result }
        ensures same { holds self.new ≡ holds self.old }
        ensures asks { fetches self.new ≡ asks_after at (fetches self.old) }
        ensures cause { HasCause (fault_count self.old) (fault_count self.new) (fetch_failed result) }
        ensures watch { watch self.new ≡ option_map after_call (watch self.old) }
        ensures fails { FailsSo (watch self.old) (fetch_failed result) }
        ensures counts { CountsSo (watch self.old) (fault_count self.old) (fault_count self.new) (fetch_failed result) };

    /// Gives the bytes that the store holds under a digest, up to one more than the digest's size. What it holds stays,
    /// whatever it answers. Each call begins a fetch.
    fn fetch(&mut self, digest: &Digest) -> Fetched
        ensures got { Fetches (held_at (holds self.old) digest.now) digest.now.size result }
        ensures same { holds self.new ≡ holds self.old }
        ensures asks { fetches self.new ≡ risen (fetches self.old) }
        ensures cause { HasCause (fault_count self.old) (fault_count self.new) (fetch_failed result) }
        ensures watch { watch self.new ≡ option_map after_call (watch self.old) }
        ensures fails { FailsSo (watch self.old) (fetch_failed result) }
        ensures counts { CountsSo (watch self.old) (fault_count self.old) (fault_count self.new) (fetch_failed result) };

    /// How many fetches were begun. It takes no memory.
    fn asks(&self) -> u64
        ensures { result ≡ fetches self.now };

    /// How many calls failed. It takes no memory.
    fn faults(&self) -> u64
        ensures { result ≡ fault_count self.now };
}
