use crate::answers::{FaultNote, Reply};
use crate::requests::Asked;
use hall_lock::By;
use mat_digest::Digest;
use mat_path::Path;

/// What a job is to do.
#[derive(Debug, Drop)]
pub enum Task {
    /// Make the tree of the row that was declared at this path under this stamp.
    Make { path: Path, stamp: u64 },
    /// Leave nothing at and below this path.
    Wipe { path: Path },
}

/// How a job ended.
#[derive(Clone, Copy, Debug, PartialEq, Eq)]
pub enum Outcome {
    /// The disk has the tree.
    Made,
    /// The disk has nothing there.
    Wiped,
    /// The store lacks a file of the tree.
    Missing(Digest),
    /// The store gave bytes of another digest for a file of the tree.
    Corrupt { wanted: Digest, found: Digest },
    /// A device failed.
    Fault(FaultNote),
    /// Want of memory.
    NoMemory,
}

/// A running job: its number, which is the history number of its begin, and its task.
#[derive(Debug, Drop)]
pub struct Card {
    pub job: u64,
    pub task: Task,
}

/// One event of a history.
#[derive(Debug, Drop)]
pub enum Event {
    /// A request came.
    Asked(Asked),
    /// A job began.
    Begin(Task),
    /// The job that began with this history number ended.
    Done { job: u64, outcome: Outcome },
}

/// One event with its reply, who caused it, and the book's moment afterwards.
#[derive(Debug, Drop)]
pub struct Entry {
    pub by: By,
    pub now: u64,
    pub event: Event,
    pub reply: Reply,
}
