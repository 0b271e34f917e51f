// The digest of bytes that come in pieces.
ghost use Rattle.std.specs.Prelude.{◌≡◌, ◌+◌, ◌^◌, ◌<◌, ℕ, List, [], ◌++◌, length};
ghost use Rattle.mat_digest.specs.Digests.{digest_of};
ghost use Rattle.mat_digest.specs.Fed.{HasTaken};

use crate::digest::Digest;
use sha2::Sha256;

/// Takes bytes piece by piece and ends in the digest of them all.
#[derive(Drop)]
pub struct Check {
    hasher: Sha256,
    size: u64,
}

impl Check {
    /// A check that has taken no byte.
    pub fn new() -> Check
        ensures { HasTaken result [] }
    {
        Check {
            hasher: <Sha256 as sha2::Digest>::new(),
            size: 0,
        }
    }

    /// Takes `bytes` after those before. The promise is for less than 2^61 bytes in all, the most
    /// that FIPS 180-4 gives a hash of.
    pub fn feed(&mut self, bytes: &[u8])
        ensures { (fed : List ℕ) → HasTaken self.old fed → length fed + length bytes.now < 2 ^ 61
            → HasTaken self.new (fed ++ bytes.now) }
    {
        sha2::Digest::update(&mut self.hasher, bytes);
        self.size = self.size.saturating_add(bytes.len() as u64);
    }

    /// The digest of all bytes taken, however they were cut.
    #[tactic(auto, unfolding(crate::specs::Digests::digest_of))]
    pub fn end(self) -> Digest
        ensures { (fed : List ℕ) → HasTaken self fed → result ≡ digest_of fed }
    {
        Digest {
            hash: sha2::Digest::finalize(self.hasher),
            size: self.size,
        }
    }
}
