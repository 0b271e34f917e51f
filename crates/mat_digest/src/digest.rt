// A digest as a value, and how it is made and read.
ghost use Rattle.std.specs.Prelude.{◌≡◌, ◌≤◌, length, Result, IfOk};
ghost use Rattle.mat_digest.specs.Digests.{IsDigest, digest_of, digest_text, read_digest, read_hash};
ghost use Rattle.mat_digest.specs.declared.digest.Digest.{Digest};

use crate::text::{read_digest, read_hash};
use sha2::Sha256;

/// The SHA-256 of some bytes and how many they are.
#[derive(Clone, Copy, Debug, PartialEq, Eq)]
pub struct Digest {
    /// The 32 bytes of the hash (FIPS 180-4, section 6.2).
    pub hash: [u8; 32],
    /// The number of bytes.
    pub size: u64,
}

/// Why a text is no digest, and at which byte, from 0, it stops to be one.
#[derive(Clone, Copy, Debug, PartialEq, Eq)]
pub enum DigestRefusal {
    /// The first of the first 64 bytes that is missing or is no lower-case hexadecimal digit.
    Hash(usize),
    /// The byte after the hash, at 64, is missing or is no colon.
    Colon(usize),
    /// What follows the colon, from 65 on, is not a size: it has no digit, a leading zero before
    /// another digit, a byte that is no digit, or a number above 2^64 - 1.
    Size(usize),
}

impl Digest {
    /// The digest of `bytes`. It takes no memory.
    ///
    /// FIPS 180-4 gives a hash of less than 2^61 bytes; from there on the length in bits that
    /// SHA-256 appends is taken modulo 2^64.
    #[tactic(auto, unfolding(crate::specs::Digests::digest_of))]
    pub fn of(bytes: &[u8]) -> Digest
        ensures { result ≡ digest_of bytes.now }
    {
        Digest {
            hash: <Sha256 as sha2::Digest>::digest(bytes),
            size: bytes.len() as u64,
        }
    }

    /// Reads the text of a digest: 64 lower-case hexadecimal digits, a colon, and the size in decimal
    /// with no leading zero. It takes no memory.
    ///
    /// It refuses with the first of `Hash`, `Colon` and `Size` that holds.
    pub fn read_text(text: &[u8]) -> Result<Digest, DigestRefusal>
        ensures exact { result ≡ read_digest text.now }
        ensures ok { IfOk result (λ d. text.now ≡ digest_text d) }
        ensures whole { (d : Digest) → IsDigest d → text.now ≡ digest_text d → result ≡ Ok d }
    {
        read_digest(text)
    }

    /// The hash that exactly 64 lower-case hexadecimal digits spell. It takes no memory.
    #[tactic(auto, unfolding(crate::specs::Digests::read_hash))]
    pub fn read_hash(text: &[u8]) -> Option<[u8; 32]>
        ensures { result ≡ read_hash text.now }
    {
        if text.len() != 64 {
            return None;
        }
        match read_hash(text) {
            Ok(hash) => Some(hash),
            Err(_) => None,
        }
    }
}
