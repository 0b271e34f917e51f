use mat_digest::Digest;
use mat_path::{Items, Path};
use mat_tree::Sum;

/// A device of the outside.
#[derive(Clone, Copy, Debug, PartialEq, Eq)]
pub enum Device {
    Disk,
    Store,
    Keeper,
}

/// A call of a device that failed, by the device's count of faults around it: before is less than after, or both are the
/// last number that 64 bits hold.
#[derive(Clone, Copy, Debug, PartialEq, Eq)]
pub struct FaultNote {
    pub device: Device,
    pub before: u64,
    pub after: u64,
}

/// What a ticket is answered in the end.
#[derive(Clone, Copy, Debug, PartialEq, Eq)]
pub enum Answer {
    /// The disk has the tree of the row that was declared under this stamp.
    Ready { stamp: u64, sum: Sum },
    /// No row covers the asked path any more.
    Undeclared,
    /// The store lacks a file of the row's tree.
    Missing(Digest),
    /// The store gave bytes of another digest for a file of the row's tree.
    Corrupt { wanted: Digest, found: Digest },
    /// A device failed.
    Fault(FaultNote),
    /// Want of memory.
    NoMemory,
    /// This command came and took the place of the one that asked.
    Preempted(u32),
}

/// A row that a clean removed, or would remove: its path, and the bytes of its files.
#[derive(Debug, Drop)]
pub struct Gone {
    pub path: Path,
    pub bytes: u64,
}

/// A limit that a request would pass.
#[derive(Clone, Copy, Debug, PartialEq, Eq)]
pub enum Limit {
    /// The entries of the history.
    History,
    /// The nodes of declared trees.
    Nodes,
    /// The commands that wait.
    Waiting,
    /// The paths with a row, a kept row or both.
    Rows,
    /// The bytes that are held for rows.
    Held,
    /// The open tickets.
    Asked,
    /// The holds.
    Holds,
}

/// Whether the state store took the row of a make.
#[derive(Clone, Copy, Debug, PartialEq, Eq)]
pub enum Recorded {
    /// It did.
    Kept,
    /// It failed.
    NotKept(FaultNote),
    /// It wanted memory.
    NoMemory,
    /// There was nothing to record.
    Nothing,
}

/// The reply to an event: one for each entry of a history, and those that no history has.
#[derive(Debug, Drop)]
pub enum Reply {
    /// The command is live.
    Entered,
    /// The command is live, and so many soft ones went for it.
    Took(u64),
    /// The command left, and so many were admitted then.
    Left(u64),
    /// A new row was declared under this stamp.
    Declared(u64),
    /// The row at the path has an equal tree, and keeps its stamp.
    Kept(u64),
    /// The row at the path has this sum.
    Same(u64),
    /// The row at the path has another sum.
    Other,
    /// No row is at the path, or none covers it.
    Nothing,
    /// The covering row stands.
    Stands(u64),
    /// The covering row doesn't stand.
    NotMade(u64),
    /// The covering row stands.
    Ready {
        stamp: u64,
        sum: Sum,
    },
    /// The covering row doesn't stand yet: a ticket of this number was opened.
    Asked(u64),
    /// So many rows were removed.
    Invalid(u64),
    /// What a clean removed, or would remove, and the debris that it found.
    Cleaned {
        dry: bool,
        rows: Items<Gone>,
        strays: Items<Path>,
    },
    /// So many rows were stored.
    Flushed(u64),
    /// The command isn't live.
    NotLive,
    /// The command is live or waits already.
    Known,
    /// Another state is live, this one, and the command would not wait for its own.
    Differs(u64),
    /// The command waits, at this place of the queue, from 1.
    Queued(u64),
    /// The command is neither live nor waiting.
    Unknown,
    /// The command has so many open tickets.
    Busy(u64),
    /// Nothing that may be copied is declared at the source.
    NoSource,
    /// A node of the copy would stand at no path.
    TooLong,
    /// No row covers the path.
    Undeclared,
    /// The state store failed.
    Fault(FaultNote),
    /// A limit would be passed. Nothing changed, and no entry was made.
    Full(Limit),
    /// Want of memory. Nothing changed, and no entry was made.
    NoMemory,
    /// A job began.
    Started,
    /// A job could not begin, since the state store failed.
    Refused(FaultNote),
    /// A job ended, and what it did counts.
    Fresh(Recorded),
    /// A job ended whose row was replaced meanwhile.
    Stale,
}
