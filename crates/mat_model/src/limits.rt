/// How much a daemon takes on.
#[derive(Clone, Copy, Debug, PartialEq, Eq)]
pub struct Limits {
    /// The entries of the history, with those that are reserved for jobs and commands.
    pub history: u64,
    /// The nodes of the trees that were declared, over all entries.
    pub nodes: u64,
    /// The paths that have a row, a kept row or both.
    pub rows: u64,
    /// The bytes of the files that rows hold.
    pub held: u64,
    /// The open tickets.
    pub asked: u64,
    /// The holds.
    pub holds: u64,
}
