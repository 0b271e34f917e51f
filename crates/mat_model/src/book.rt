use crate::answers::Answer;
use mat_path::{Items, Path};
use mat_tree::{Sum, Tree};

/// One declared artifact.
#[derive(Debug, Drop)]
pub struct Row {
    pub path: Path,
    pub tree: Tree,
    pub sum: Sum,
    /// The history number of the declaration.
    pub stamp: u64,
    /// Whether the disk has the tree.
    pub stands: bool,
    /// The moment of the last use.
    pub last: u64,
}

/// A command's claim on a path, until the command leaves.
#[derive(Debug, Drop)]
pub struct Hold {
    pub command: u32,
    pub path: Path,
}

/// A command in the queue, and the state that it asks for.
#[derive(Clone, Copy, Debug, PartialEq, Eq)]
pub struct Waiter {
    pub command: u32,
    pub state: u64,
}

/// A promise to answer an ensure. Its number is the history number of that ensure.
#[derive(Debug, Drop)]
pub struct Ticket {
    pub number: u64,
    pub command: u32,
    pub asked: Path,
    pub answered: Option<Given>,
}

/// An answer, and the history number of the entry that gave it.
#[derive(Clone, Copy, Debug, PartialEq, Eq)]
pub struct Given {
    pub at: u64,
    pub answer: Answer,
}

/// What the daemon knows: the gate, the rows in path order, the holds and the tickets as they were given, and the
/// greatest moment seen.
#[derive(Debug, Drop)]
pub struct Book {
    /// The history number of the first entry.
    pub first: u64,
    pub now: u64,
    /// The state of the live commands; none exactly where nobody is live.
    pub state: Option<u64>,
    pub live: Items<u32>,
    pub waiting: Items<Waiter>,
    /// The soft commands that are live or wait, ascending.
    pub soft: Items<u32>,
    pub rows: Items<Row>,
    pub holds: Items<Hold>,
    pub tickets: Items<Ticket>,
}
