// Digests as the keys of a map.
ghost use Rattle.std.specs.Prelude.{◌≡◌};
ghost use Rattle.std.proofs.Common.{rules};
ghost use Rattle.std.specs.Cmp.{partial_order_from_own_ties};
ghost use Rattle.std.specs.Cmp.Rules.{comparing};
ghost use Rattle.std.specs.Ordering.{as_partial_cmp};
ghost use Rattle.fetch_port.specs.Keys.{key_cmp, key_of, same_key};

use mat_digest::Digest;
use std::cmp::Ordering;

/// A digest as a key.
#[derive(Clone, Copy, Debug)]
pub struct Key {
    pub(crate) hash: [u8; 32],
    pub(crate) size: u64,
}

impl Key {
    // The key of a digest.
    pub(crate) fn of(digest: &Digest) -> Key
        ensures { result ≡ key_of digest.now }
    {
        let hash = digest.hash;
        Key {
            hash,
            size: digest.size,
        }
    }
}

impl PartialEq for Key {
    ghost eq = { same_key };

    ghost laws = { Prim.search (comparing, rules) };

    fn eq(&self, other: &Key) -> bool {
        self.hash == other.hash && self.size == other.size
    }
}

impl Eq for Key {
    ghost laws = { Prim.search (comparing, rules) };
}

impl Ord for Key {
    ghost cmp = { key_cmp };

    ghost total = { Prim.search (comparing, rules) };

    ghost matches_partial_cmp = { Prim.search (comparing, rules) };

    ghost matches_eq = { Prim.search (comparing, rules) };

    fn cmp(&self, other: &Key) -> Ordering {
        self.hash.cmp(&other.hash).then(self.size.cmp(&other.size))
    }
}

impl PartialOrd for Key {
    ghost partial_cmp = { as_partial_cmp key_cmp };

    ghost laws = { partial_order_from_own_ties (Prim.search (comparing, rules)) (Prim.search (comparing, rules)) };

    fn partial_cmp(&self, other: &Key) -> Option<Ordering> {
        Some(self.cmp(other))
    }
}
