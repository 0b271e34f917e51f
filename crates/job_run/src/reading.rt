// A file that is read piece by piece.
ghost use Rattle.std.specs.Prelude.{◌≡◌, ◌≤◌, ◌+◌, true, ℕ, List, [], length, if◌then◌else◌};
ghost use Rattle.mat_tree.specs.Trees.{greatest_file, same_digest};
ghost use Rattle.job_run.specs.Pieces.{most_bytes};
ghost use Rattle.job_run.specs.Readings.{HasGiven, Takes, is_later};

use crate::pieces::{self, MOST_BYTES};
use mat_digest::{Check, Digest};

/// How far a file is read: how many of its bytes were given, and their check.
#[derive(Drop)]
pub struct Reading {
    pub(crate) at: u64,
    check: Check,
}

/// What a piece comes to.
#[derive(Drop)]
pub(crate) enum Taken {
    /// It is whole, and more are due.
    More(Reading),
    /// It is the last, and all bytes have the digest of the file.
    Last,
    /// It has another length than is due, or all bytes have this other digest.
    Wrong(Digest),
}

/// What the last piece comes to, by the digest of all bytes.
fn last(found: Digest, wanted: &Digest) -> Taken
    ensures { result ≡ (if same_digest found wanted.now then Taken.Last else Taken.Wrong found) }
{
    if found == *wanted {
        return Taken::Last;
    }
    Taken::Wrong(found)
}

impl Reading {
    /// A file of which no byte was given yet.
    pub(crate) fn new() -> Reading
        ensures { HasGiven result [] }
    {
        Reading {
            at: 0,
            check: Check::new(),
        }
    }

    /// Takes the next piece of a file.
    pub(crate) fn take(self, wanted: &Digest, piece: &[u8]) -> Taken
        requires small { wanted.now.size ≤ greatest_file }
        requires within { self.at ≤ wanted.now.size }
        requires short { length piece.now ≤ most_bytes + 1 }
        ensures takes { (given : List ℕ) → HasGiven self given → Takes wanted.now given piece.now result }
        ensures later { is_later result ≡ true }
    {
        let Reading { at, mut check } = self;
        check.feed(piece);
        if pieces::is_last(wanted.size, at) {
            return last(check.end(), wanted);
        }
        if piece.len() == MOST_BYTES as usize {
            let at = at + MOST_BYTES as u64;
            return Taken::More(Reading { at, check });
        }
        Taken::Wrong(check.end())
    }
}
