// What is told of an item.
use mat_digest::Digest;
use mat_model::{Answer, FaultNote, Reply, Task};
use mat_path::Items;
use mat_tree::Flat;

/// What is said of an item, and the tickets that it answered.
#[derive(Debug, Drop)]
pub struct Told {
    pub said: Said,
    pub answers: Items<Answered>,
}

/// A ticket that was answered.
#[derive(Clone, Copy, Debug, PartialEq, Eq)]
pub struct Answered {
    pub ticket: u64,
    pub answer: Answer,
}

/// What is said of an item.
#[derive(Debug, Drop)]
pub enum Said {
    /// The reply to a request or to a worker's event.
    Reply(Reply),
    /// The bytes stand in the blob store under this digest.
    Stored(Digest),
    /// The moment is this.
    At(u64),
    /// The worker found nothing to begin.
    Idle,
    /// The worker began a job.
    Began(Task),
    /// The worker's job goes on.
    Going,
    /// The worker's job ended.
    Ended,
    /// All workers are idle.
    Drained,
    /// The nodes of the disk at and below a path.
    Shown(Items<Flat>),
    /// A loan overlaps the path.
    Busy,
    /// How often the blob store was called.
    Asks(u64),
    /// The call will fail, or the stop will come.
    Armed,
    /// The daemon was opened again, with so many kept rows.
    Restarted(u64),
    /// The daemon is stopped.
    Stopped,
    /// The daemon could not be opened again.
    Shut(ScanNote),
}

/// Why a daemon could not be opened.
#[derive(Clone, Copy, Debug, PartialEq, Eq)]
pub enum ScanNote {
    /// A device failed.
    Fault(FaultNote),
    /// Want of memory.
    NoMemory,
}
