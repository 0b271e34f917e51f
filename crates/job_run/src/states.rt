// The stages of a job.
use crate::reading::Reading;
use mat_digest::Digest;
use mat_model::Outcome;
use mat_path::{Rel, Target};
use mat_tree::Tree;
use region_port::{Part, Region};
use std::collections::VecDeque;
use write_plan::{Act, Method};

/// What a make is to do: the acts behind the one that it is at, for a tree whose bytes come by a method; `lent` says whether the
/// part that the row was copied from is lent.
#[derive(Drop)]
pub struct Order {
    pub(crate) tree: Tree,
    pub(crate) method: Method,
    pub(crate) lent: bool,
    pub(crate) left: VecDeque<Act>,
}

/// Where the bytes of a file are read.
#[derive(Drop)]
pub enum Source {
    /// In the store.
    Store,
    /// At this rel of the part that is lent.
    Loan(Rel),
}

/// A file that is being put.
#[derive(Drop)]
pub struct Filing {
    pub(crate) rel: Rel,
    pub(crate) digest: Digest,
    pub(crate) exec: bool,
}

/// How the next piece of a file comes.
#[derive(Drop)]
pub enum Filling {
    /// The row holds the bytes, and the piece from this offset on is put next.
    Held {
        at: usize,
    },
    /// The next piece is read next.
    Due {
        from: Source,
        reading: Reading,
    },
    /// This piece was read, and is put next, from this offset on. Reading goes on behind it, unless it is the last.
    Got {
        from: Source,
        at: u64,
        piece: Vec<u8>,
        more: Option<Reading>,
    },
}

/// The act that a make is at.
#[derive(Drop)]
pub enum Doing {
    /// A directory is put next.
    Dir(Rel),
    /// A link is put next.
    Link(Rel, Target),
    /// A file is being put.
    File(Filing, Filling),
    /// All nodes are put.
    Sync,
}

/// A make that was begun with a wipe.
#[derive(Drop)]
pub struct Making<R: Region> {
    pub(crate) region: R,
    pub(crate) order: Order,
    pub(crate) doing: Doing,
}

/// The stage of a job.
#[derive(Drop)]
pub enum State<R: Region> {
    /// A job that only wipes, at its first step.
    Wiping(R),
    /// The same at its last step.
    Emptying(R),
    /// A make at its first step.
    Clearing(R, Order),
    /// A make behind its first step.
    Making(Making<R>),
    /// A job that has ended.
    Ended(Part<R>, Outcome),
    /// No job: it is in the middle of a step.
    Moving,
}
